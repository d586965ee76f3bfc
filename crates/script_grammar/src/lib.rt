//! Grammars of words and values: what texts spell, how such texts are read on lists, and that the reading is exact.
//! There are definitions and laws alone.
#![tactic(auto)]
