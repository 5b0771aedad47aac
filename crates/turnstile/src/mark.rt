/// How a slot stands with the pass that holds it. Between two calls each is at home.
pub enum Mark {
    /// The unit is the caller's, and none stands in the slot.
    AtHome,
    /// The unit is on its way into the slot or out of it.
    Out,
    /// The slot was empty, and its first unit is on its way into it.
    Placed,
}
