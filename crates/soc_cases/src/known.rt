//! A plain model of lives: what their answers tell of a crash, and what each later life must then show of it.

/// What an answer tells of a command.
#[derive(Clone, Copy)]
pub enum Answer {
    Done,
    NotFound,
    Withdrawn,
    Fault,
    Other,
}

/// What a life shows of a crash when it opens.
#[derive(Clone, Copy)]
pub struct Seen {
    pub shown: bool,
    pub withdrawn: bool,
    pub reported: bool,
}

/// What is known of a crash. What a fault has left open isn't.
#[derive(Clone, Copy)]
pub struct Known {
    accepted: Option<bool>,
    withdrawn: Option<bool>,
    /// It has a report that was kept under the first lists, and wasn't asked for since.
    kept: Option<bool>,
    /// It has a report under this life's lists, and wasn't asked for since.
    made: Option<bool>,
    /// It may have been asked for by a write that failed in this life.
    in_doubt: bool,
}

impl Known {
    /// A crash that was never sent.
    pub fn unsent() -> Known {
        Known {
            accepted: Some(false),
            withdrawn: Some(false),
            kept: Some(false),
            made: Some(false),
            in_doubt: false,
        }
    }

    /// A life opens: what was acknowledged is there, and so are the reports that were kept under the same lists.
    pub fn open(&mut self, seen: Seen, first_lists: bool) -> bool {
        let made = if first_lists { self.kept } else { Some(false) };
        let may = fits(self.accepted, seen.shown || seen.withdrawn)
            && fits(self.withdrawn, seen.withdrawn)
            && (!seen.shown || fits(made, seen.reported));
        *self = Known {
            accepted: Some(seen.shown || seen.withdrawn),
            withdrawn: Some(seen.withdrawn),
            kept: self.kept,
            made: Some(seen.reported),
            in_doubt: false,
        };
        may
    }

    /// It is sent, and kept once, unless it was withdrawn.
    pub fn send(&mut self, answer: Answer) -> bool {
        match answer {
            Answer::Done => {
                self.accepted = Some(true);
                self.is_shown()
            }
            Answer::Withdrawn => self.is_gone(),
            Answer::Fault => {
                self.accepted = or_open(self.accepted, true);
                true
            }
            _ => false,
        }
    }

    /// It is withdrawn, where it is shown.
    pub fn withdraw(&mut self, answer: Answer) -> bool {
        match answer {
            Answer::Done => {
                let may = self.is_shown();
                self.withdrawn = Some(true);
                may
            }
            Answer::NotFound => !self.must_show(),
            Answer::Fault => {
                self.withdrawn = or_open(self.withdrawn, true);
                true
            }
            _ => false,
        }
    }

    /// Its report is asked for again, where it is shown.
    pub fn ask(&mut self, answer: Answer) -> bool {
        self.kept = or_open(self.kept, false);
        self.made = or_open(self.made, false);
        match answer {
            Answer::Done => self.is_shown(),
            Answer::NotFound => !self.must_show(),
            Answer::Fault => {
                self.in_doubt = true;
                true
            }
            _ => false,
        }
    }

    /// All that is due is processed.
    pub fn drain(&mut self, answer: Answer) -> bool {
        self.made = match answer {
            Answer::Done if self.must_show() && !self.in_doubt => Some(true),
            _ => or_open(self.made, true),
        };
        matches!(answer, Answer::Done | Answer::Fault)
    }

    /// Its report is read before the life ends.
    pub fn read(self, reported: bool) -> bool {
        !self.must_show() || fits(self.made, reported)
    }

    /// A life ends. Under the first lists its reports were kept, unless the disk failed.
    pub fn close(&mut self, first_lists: bool, failed: bool) {
        if first_lists {
            self.kept = match self.kept {
                Some(kept) if failed => or_open(self.made, kept),
                None if failed => None,
                _ => self.made,
            };
        }
    }

    fn must_show(self) -> bool {
        matches!((self.accepted, self.withdrawn), (Some(true), Some(false)))
    }

    /// It is shown, if it may be.
    fn is_shown(&mut self) -> bool {
        let may = fits(self.accepted, true) && fits(self.withdrawn, false);
        self.accepted = Some(true);
        self.withdrawn = Some(false);
        may
    }

    /// It is gone, if it may be.
    fn is_gone(&mut self) -> bool {
        let may = fits(self.accepted, true) && fits(self.withdrawn, true);
        self.accepted = Some(true);
        self.withdrawn = Some(true);
        may
    }
}

/// Whether what is seen is what is known, where something is.
fn fits(known: Option<bool>, seen: bool) -> bool {
    match known {
        Some(known) => known == seen,
        None => true,
    }
}

/// What is known once something may have become so.
fn or_open(known: Option<bool>, so: bool) -> Option<bool> {
    match known {
        Some(known) if known == so => Some(known),
        _ => None,
    }
}
