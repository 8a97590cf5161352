//! Properties of pairs that no contract states.
mod slots;
