use conf_types::Config;
use std::collections::LinkedList;

/// What a seat knows of the published list. No value of it is made.
pub struct Knows {
    /// A beginning of the list.
    pub configs: LinkedList<Config>,
    /// Another beginning of it, which it was told of.
    pub heard: LinkedList<Config>,
    /// It is the one seat that extends the list, and knows it whole.
    pub extends: bool,
}
