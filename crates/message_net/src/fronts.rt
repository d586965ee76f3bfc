//! Strings by how they begin.
ghost use Rattle.std.specs.Prelude.{◌≡◌, ℕ, ◌<◌, ◌++◌, ◌∷◌, [], nat_eq, Some, OnOk, if◌then◌else◌, vec_len, vec_capacity};
ghost use Rattle.std.specs.HashMap.{get, spare};
ghost use Rattle.message_net.specs.Nets.{front_of};

use std::alloc::AllocError;
use std::collections::HashMap;

/// The front of a string as a number, by its first seven bytes: strings that begin with the same seven bytes have the same
/// front. It is 0 where there are fewer.
pub fn front_of(bytes: &[u8]) -> u64
    ensures { result ≡ front_of bytes.now }
{
    let [a, b, c, d, e, f, g, ..] = bytes else {
        return 0;
    };
    let three = (u64::from(*a) * 256 + u64::from(*b)) * 256 + u64::from(*c);
    let five = (three * 256 + u64::from(*d)) * 256 + u64::from(*e);
    (five * 256 + u64::from(*f)) * 256 + u64::from(*g)
}

/// The place of the newest string with this front.
pub(crate) fn newest_in(newest: &HashMap<u64, u64>, front: u64) -> Option<u64>
    ensures { result ≡ get nat_eq newest.now front }
{
    newest.get(&front).copied()
}

/// Makes room for one string more. No front's place changes, and an error is want of memory.
pub(crate) fn reserve(
    newest: &mut HashMap<u64, u64>,
    older: &mut Vec<Option<u64>>,
) -> Result<(), AllocError>
    ensures newest { (front : ℕ) → get nat_eq newest.new front ≡ get nat_eq newest.old front }
    ensures older { older.new.items ≡ older.old.items }
    ensures ok { OnOk result ((0 < spare newest.new)
        × (vec_len older.new < vec_capacity older.new)) }
{
    older.reserve(1)?;
    newest.reserve(1)?;
    Ok(())
}

/// Notes that the newest string has this front and stands at this place, and where the newest one of its front stood before.
pub(crate) fn join(
    newest: &mut HashMap<u64, u64>,
    older: &mut Vec<Option<u64>>,
    front: u64,
    place: u64,
)
    requires newest { 0 < spare newest.old }
    requires older { vec_len older.old < vec_capacity older.old }
    ensures newest { (other : ℕ) → get nat_eq newest.new other
        ≡ (if nat_eq front other then Some place else get nat_eq newest.old other) }
    ensures older { older.new.items ≡ older.old.items ++ get nat_eq newest.old front ∷ [] }
{
    older.push_reserved(newest_in(newest, front));
    match newest.insert(front, place) {
        Ok(_) => {}
        Err(_) => unreachable!(),
    }
}
