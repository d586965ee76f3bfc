//! The script language: which lines some bytes spell, where bytes that spell none go wrong, how lines are written, and that
//! reading and writing on lists of bytes are exact. There are definitions and laws alone.
#![tactic(auto)]
