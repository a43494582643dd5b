//! What the tokens of a part of an SDF file spell, they spell wherever the part stands in the file.
#![tactic(auto)]
