//! The abstract router: what a label switching router knows of paths, reservations and labels, and what events do to it.
//! One state, one step, one run. That every state is sound is proved in `router_soundness`.
#![tactic(auto)]
