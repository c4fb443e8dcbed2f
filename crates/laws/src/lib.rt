#![tactic(auto)]

// The laws of the format have no code.
