//! What the entries of a scan's map are, position by position: what was stored at each when the scan came to it, and how its reading ended.
#![tactic(auto)]
