//! A world that plays the lines of scripts.
ghost use Rattle.played_runs.specs.Games.{Game};
ghost use Rattle.played_runs.specs.Laws.{IsGame};

/// A world that plays the lines `L` of scripts. What a line does is handed to whoever plays lines, as a closure: it may start
/// threads.
pub trait Playable<L> {
    /// What its servers keep beside the world of the definitions.
    ghost Peers: { Type 0 };

    /// Its servers in the code.
    ghost Servers: { Type 0 };

    /// What is told of it.
    ghost game: { Game Peers L Servers Self };

    /// What is asked of such a world holds.
    ghost plays: { IsGame game };
}
