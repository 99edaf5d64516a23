//! What becomes of a Send.

ghost use Rattle.std.specs.Prelude.{◌≡◌};
ghost use Rattle.st_world_quiet.specs.LostWorlds.{course_at, gives_on, puts_on};
ghost use Rattle.st_world_quiet.specs.Fates.{course_of, courses_of, lost_by};

/// What becomes of a Send of a run that is played. Links are numbered from that of the client on, which is 0. A number
/// past the last link means the last one.
#[derive(Clone, Copy, Debug, PartialEq, Eq)]
pub enum Fate {
    /// The Prepare arrives over all links, and its answer returns over all of them.
    Delivered,
    /// The Prepare is lost on this link.
    PrepareLost(usize),
    /// The Prepare arrives over all links, and its answer is lost on this one.
    AnswerLost(usize),
}

impl Fate {
    /// How many Prepares it has put on a link: one, or none after the link that loses its Prepare.
    pub(crate) fn prepares(&self, link: usize) -> usize
        ensures one { result ≡ puts_on (course_of self.now) link }
    {
        match self {
            Fate::Delivered => 1,
            Fate::PrepareLost(at) => { if link <= *at { 1 } else { 0 } }
            Fate::AnswerLost(_) => 1,
        }
    }

    /// How many answers are given on a link of a chain of `hops` hops: one, or none on the link that loses its Prepare
    /// and on those after it.
    pub(crate) fn gives(&self, hops: usize, link: usize) -> usize
        ensures one { result ≡ gives_on hops (course_of self.now) link }
    {
        match self {
            Fate::Delivered => 1,
            Fate::PrepareLost(at) => { if link < (*at).min(hops) { 1 } else { 0 } }
            Fate::AnswerLost(_) => 1,
        }
    }

    /// How many losses it is: none or one.
    pub(crate) fn lost(&self) -> u64
        ensures { result ≡ lost_by self.now }
    {
        match self {
            Fate::Delivered => 0,
            Fate::PrepareLost(_) | Fate::AnswerLost(_) => 1,
        }
    }
}

/// The fate of the Send after `sends` others. A Send past the end of the list is delivered.
pub(crate) fn fate_at(fates: &[Fate], sends: usize) -> Fate
    ensures { course_of result ≡ course_at (courses_of fates.now) sends }
{
    if sends < fates.len() {
        return fates[sends];
    }
    Fate::Delivered
}
