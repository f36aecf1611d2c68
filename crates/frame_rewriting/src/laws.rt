//! What a frame that goes on is by what reading it, forwarding it and writing it give. Each law is the contract of a
//! function that does nothing.

ghost use Rattle.std.specs.Prelude.{◌≡◌, ℕ, List};
ghost use Rattle.forwarding_table.specs.declared.forwarding.Forwarding.{Forwarding};
ghost use Rattle.label_stacks.specs.declared.entry.StackEntry.{StackEntry};
ghost use Rattle.link_frames.specs.Frames.{frame_bytes};
ghost use Rattle.link_frames.specs.declared.frame.Frame.{Frame};
ghost use Rattle.lsr_facts.specs.declared.router.Router.{Router};
ghost use Rattle.datagrams.specs.Datagrams.{IsDatagram};
ghost use Rattle.frame_rewriting.specs.Passing.{passed_over};
ghost use Rattle.frame_rewriting.specs.Rewriting.{GoesOn, sent_bytes, sent_frame};

/// A frame that goes on is read as one that is sent over its link, with its entries over the payload as it came; and
/// what is written of that are the bytes that it leaves as.
pub fn what_goes_on_is_sent()
    ensures read { (r : Router) (forward : List StackEntry → Forwarding) (link out : ℕ) (bytes : List ℕ) (stack : List StackEntry) →
        GoesOn forward bytes out stack → IsDatagram r forward link bytes (passed_over out (sent_frame stack bytes)) }
    ensures written { (forward : List StackEntry → Forwarding) (out : ℕ) (bytes : List ℕ) (stack : List StackEntry) →
        GoesOn forward bytes out stack → frame_bytes (sent_frame stack bytes) ≡ sent_bytes stack bytes }
{}

/// What is read as a frame that is sent over a link is one that goes on there. So where a frame doesn't go on, its
/// datagram is none that is sent.
pub fn what_is_sent_goes_on()
    ensures { (r : Router) (forward : List StackEntry → Forwarding) (link out : ℕ) (bytes : List ℕ) (frame : Frame) →
        IsDatagram r forward link bytes (passed_over out frame) →
        (stack : List StackEntry) × GoesOn forward bytes out stack × (frame ≡ sent_frame stack bytes) }
{}
