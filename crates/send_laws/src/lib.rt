// Identifiers read back, whole messages frame by frame, and the agreement with the bench: definitions and theorems over those of `can_id`, `builder`, `splitter` and `oracle`; no code.
#![tactic(auto)]
