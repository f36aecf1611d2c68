use rsvp_contents::Route;

/// The way that a path takes from here.
#[derive(Debug, Drop)]
pub enum Choice {
    /// It ends here.
    Tail,
    /// It goes on by the link of this number, with what is left of its route.
    Link(u16, Option<Route>),
}
