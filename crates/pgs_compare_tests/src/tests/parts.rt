//! The calls that the comparison is made of, each once.
mod facts;
mod find;
mod incons;
mod select;
mod snapcheck;
