//! What an answer says, in words that all readers share: definitions alone, in `specs/`.
#![tactic(auto)]
