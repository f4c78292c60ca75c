//! Tests of the spellings of fields, object infos and snapsets: each public call once, and every cut and changed byte.
#![tactic(auto)]

#[cfg(test)]
mod tests;
