//! What a module's specify blocks mean: specparams, delays and pulse limits in ticks, the paths to each output bit, timing checks, and each fault with its place.
#![tactic(auto)]
