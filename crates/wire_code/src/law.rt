//! Laws of spelled values.
ghost use Rattle.std.specs.Prelude.{◌≡◌, ◌≤◌, ℕ, List, length, take};
ghost use Rattle.byteorder.specs.Endian.{big_number};
ghost use Rattle.wire_code.specs.Spelling.{IsBytes, number_text};

/// The bytes of a number that was read from bytes are these bytes.
pub fn law_of_numbers()
    ensures { (width : ℕ) (bytes : List ℕ) → IsBytes bytes → width ≤ length bytes →
        number_text width (big_number width bytes) ≡ take width bytes }
{}
