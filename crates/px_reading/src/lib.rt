//! What it means to read one thing after another, each of which may fail: definitions alone.
#![tactic(auto)]
