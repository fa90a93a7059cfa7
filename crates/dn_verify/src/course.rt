// How far the lines have told a run.

ghost use Rattle.std.specs.Prelude.{◌≡◌, ◌↔◌, Contains, IsTrue, OnOk, Some, None, if◌then◌else◌, nat_lt};
ghost use Rattle.dn_verify.specs.Course.{actor_of, no_course, place_after, with_put};
ghost use Rattle.dn_verify.specs.Kept.{course_of};

use crate::mail::Mail;
use crate::puts::Puts;
use crate::scene::Scene;
use crate::told::Told;
use dn_memory::NoMemory;
use dn_report::ReportLine;
use dn_wire::{Member, ServerId};
use std::alloc::Global;

/// How far the report has come.
#[derive(Clone, Copy, PartialEq, Eq)]
pub enum Ending {
    Open,
    Audited,
    Ended,
}

impl Ending {
    /// How far the report has come behind a line; None where the line may not stand there.
    pub fn behind(self, line: &ReportLine) -> Option<Ending>
        ensures { result ≡ place_after self line.now }
    {
        match (self, line) {
            (Ending::Open, ReportLine::Event(_)) => Some(Ending::Open),
            (Ending::Open, ReportLine::Race { .. }) => Some(Ending::Open),
            (Ending::Open, ReportLine::Board { .. }) => Some(Ending::Open),
            (Ending::Open, ReportLine::Outcome(_)) => Some(Ending::Open),
            (Ending::Open, ReportLine::Audit { .. }) => Some(Ending::Audited),
            (Ending::Audited, ReportLine::End) => Some(Ending::Ended),
            _ => None,
        }
    }
}

/// What the lines so far tell by themselves: how many payloads were posted and who put them, which messages are in flight, and who was
/// told.
#[derive(Drop)]
pub struct Course {
    pub posted: usize,
    pub puts: Puts,
    pub mail: Mail,
    pub told: Told,
    pub scene: Scene,
    pub closed: Option<ServerId>,
    pub ending: Ending,
}

impl Course {
    pub fn new(alloc: Global) -> Course
        ensures { course_of result ≡ no_course }
    {
        Course {
            posted: 0,
            puts: Puts::new(alloc),
            mail: Mail::new(alloc),
            told: Told::new(alloc),
            scene: Scene::Idle,
            closed: None,
            ending: Ending::Open,
        }
    }

    /// Who sends what is sent now.
    pub fn actor(&self) -> Option<Member>
        ensures { result ≡ actor_of (course_of self.now) }
    {
        self.scene.actor(self.closed)
    }

    /// The payload with this number, if it was posted.
    pub fn payload(&self, number: u64) -> Option<usize>
        ensures { result ≡ (if nat_lt number self.now.posted then Some number else None) }
    {
        if number < self.posted as u64 {
            Some(number as usize)
        } else {
            None
        }
    }
}
