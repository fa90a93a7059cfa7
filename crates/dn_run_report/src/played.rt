ghost use Rattle.std.specs.Prelude.{◌≡◌, ◌++◌, IfOk, OnOk, OnErr};
ghost use Rattle.std.specs.List.{flat_map};
ghost use Rattle.std.specs.Io.KnownBytes.{Appends};
ghost use Rattle.dn_io.specs.Sink.{AppendsFront};
ghost use Rattle.dn_io.specs.Writing.{AppendsAllBut, CountsWrite};
ghost use Rattle.dn_world.specs.Kept.{Vouches};
ghost use Rattle.dn_run_report.specs.Report.{head_lines, shown_lines, last_lines, lines_text, report_text};

use crate::head::put_head;
use crate::shown::Shown;
use crate::step_lines::put_step;
use dn_io::{Collector, Sink, WriteEnd};
use dn_memory::NoMemory;
use dn_report::{Outcome, ReportLine, print_line};
use dn_roster::{GroupSpec, Roster};
use dn_wire::MemberList;
use dn_world::{Audit, Step, World};
use std::alloc::Global;
use std::marker::Model;

/// A script that was run: the world that came of it, and what is shown of that. Seen as all that its report tells.
#[derive(Drop)]
pub struct Played {
    alloc: Global,
    group: GroupSpec,
    roster: Roster,
    corrupt: MemberList,
    world: World,
    shown: Vec<Shown>,
    audit: Audit,
}

impl Model for Played {
    ghost use Rattle.dn_run_report.specs.Report.{PlayedView};

    ghost Value = { PlayedView };

    ghost view = { λ p. record { group = p.group; roster = p.roster; corrupt = p.corrupt; history = p.world.history; shown = p.shown.items; audit = p.audit } };
}

/// Appends the lines of what is shown.
fn put_shown(
    alloc: Global,
    history: &[Step],
    shown: Shown,
    out: &mut Vec<u8>,
) -> Result<(), NoMemory>
    ensures { OnOk result (out.new.items ≡ out.old.items ++ lines_text (shown_lines history.now shown)) }
{
    match shown {
        Shown::Event(number) => match history.get(number as usize) {
            Some(step) => put_step(alloc, step, out),
            None => Ok(()),
        },
        Shown::Race { server, workers } => print_line(&ReportLine::Race { server, workers }, out),
        Shown::Board { server, read } => print_line(&ReportLine::Board { server, read }, out),
        Shown::Ignored(word) => print_line(&ReportLine::Outcome(Outcome::Ignored(word)), out),
    }
}

/// The lines of what is shown, as one piece.
fn shown_piece(alloc: Global, history: &[Step], shown: Shown) -> Result<Vec<u8>, NoMemory>
    ensures { IfOk result (λ piece. piece.items ≡ lines_text (shown_lines history.now shown)) }
{
    let mut piece = Vec::new(alloc);
    put_shown(alloc, history, shown, &mut piece)?;
    Ok(piece)
}

/// The last lines, as one piece.
fn last_piece(alloc: Global, audit: Audit) -> Result<Vec<u8>, NoMemory>
    ensures { IfOk result (λ piece. piece.items ≡ lines_text (last_lines audit)) }
{
    let mut piece = Vec::new(alloc);
    print_line(
        &ReportLine::Audit {
            signed: audit.signed,
            digests: audit.digests,
            honest: audit.honest,
        },
        &mut piece,
    )?;
    print_line(&ReportLine::End, &mut piece)?;
    Ok(piece)
}

impl Played {
    /// A group of which this came, and what is shown of that.
    pub fn of(
        alloc: Global,
        group: GroupSpec,
        roster: Roster,
        corrupt: MemberList,
        world: World,
        shown: Vec<Shown>,
    ) -> Played
        ensures of { result ≡ record { group = group; roster = roster; corrupt = corrupt; history = world.history; shown = shown.items; audit = result.audit } }
        ensures vouches { Vouches world result.audit }
    {
        let audit = world.audit();
        Played {
            alloc,
            group,
            roster,
            corrupt,
            world,
            shown,
            audit,
        }
    }

    /// The events with what came of them, in order.
    pub fn history(&self) -> &[Step]
        ensures { result.now ≡ self.now.history }
    {
        self.world.history()
    }

    /// What the audit says.
    pub fn audit(&self) -> Audit
        ensures { result ≡ self.now.audit }
    {
        self.audit
    }

    /// The lines in front, as one piece.
    fn head_piece(&self) -> Result<Vec<u8>, NoMemory>
        ensures { IfOk result (λ piece. piece.items ≡ lines_text (head_lines self.now.group self.now.roster self.now.corrupt)) }
    {
        let mut piece = Vec::new(self.alloc);
        put_head(
            self.alloc,
            &self.group,
            &self.roster,
            &self.corrupt,
            &mut piece,
        )?;
        Ok(piece)
    }

    /// Adds the lines of all that is shown to what a collector puts into a sink.
    fn add_shown<K: Sink>(&self, collector: &mut Collector, sink: &mut K) -> Result<(), WriteEnd>
        ensures ok { OnOk result (AppendsAllBut (K.held sink.old) (K.held sink.new) (collector.old ++ lines_text (flat_map (shown_lines self.now.history) self.now.shown)) collector.new) }
        ensures err { OnErr result (AppendsFront (K.held sink.old) (K.held sink.new) (collector.old ++ lines_text (flat_map (shown_lines self.now.history) self.now.shown))) }
        ensures faults { CountsWrite (K.faults sink.old) (K.faults sink.new) result }
    {
        for shown in &self.shown {
            let Ok(piece) = shown_piece(self.alloc, self.world.history(), *shown) else {
                return Err(WriteEnd::NoMemory);
            };
            collector.add(sink, &piece)?;
        }
        Ok(())
    }

    /// Writes the report, line by line. After an error a front of it was written; `WriteFault` comes only where the sink's count rose in
    /// this call.
    pub fn write<K: Sink>(&self, sink: &mut K) -> Result<(), WriteEnd>
        ensures ok { OnOk result (Appends (K.held sink.old) (K.held sink.new) (report_text self.now)) }
        ensures err { OnErr result (AppendsFront (K.held sink.old) (K.held sink.new) (report_text self.now)) }
        ensures faults { CountsWrite (K.faults sink.old) (K.faults sink.new) result }
    {
        let mut collector = Collector::new(self.alloc);
        let Ok(head) = self.head_piece() else {
            return Err(WriteEnd::NoMemory);
        };
        collector.add(sink, &head)?;
        self.add_shown(&mut collector, sink)?;
        let Ok(last) = last_piece(self.alloc, self.audit) else {
            return Err(WriteEnd::NoMemory);
        };
        collector.add(sink, &last)?;
        collector.finish(sink)
    }
}
