// When a message is to be sent again.
use timed_rows::Timed;

/// Messages are sent again so many milliseconds after they were sent last.
#[derive(Copy, Clone, Debug)]
pub struct Refresh {
    pub(crate) period_ms: u32,
}

impl Timed<u64> for Refresh {
    ghost use Rattle.refresh_timers.specs.Timers.{again_at};

    ghost at = { λ r sent. again_at r.period_ms sent };

    fn at(&self, sent: &u64) -> Option<u64> {
        sent.checked_add(u64::from(self.period_ms))
    }
}
