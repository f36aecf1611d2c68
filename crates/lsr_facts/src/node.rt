use crate::router::Router;
use rsvp_contents::Prefix;
use sorted_rows::Table;

/// Where a router stands: its own addresses and links, which of these are up, and its static routes.
#[derive(Clone, Copy, Debug)]
pub struct Node<'a> {
    /// What never changes.
    pub router: &'a Router,
    /// Of each link whether it is up.
    pub up: &'a Table<u16, bool>,
    /// The static routes.
    pub routes: &'a Table<Prefix, u16>,
}
