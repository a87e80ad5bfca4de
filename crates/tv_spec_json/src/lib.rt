//! The form of files in JSON, as definitions over the value that `serde_json` reads. Nothing is read here.
#![tactic(auto)]
