//! A connection that was served.
ghost use Rattle.std.specs.Prelude.{◌≡◌};

use soc_listen::Conn;
use soc_session::SessionEnd;

/// A connection that was served, or left unread. It hands the connection to nobody.
#[derive(Drop)]
pub struct Shut<X, W> {
    pub(crate) conn: Conn<X, W>,
    pub(crate) end: Option<SessionEnd>,
}

impl<X, W> Shut<X, W> {
    /// How its session ended, `None` exactly where it stayed unread.
    pub fn end(&self) -> Option<SessionEnd>
        ensures { result ≡ self.now.end }
    {
        self.end
    }
}
