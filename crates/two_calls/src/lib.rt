// Definitions and theorems only: what the answers to two calls have in common.
#![tactic(auto)]
