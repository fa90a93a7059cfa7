ghost use Rattle.std.specs.Prelude.{◌≡◌, length};
ghost use Rattle.dn_layout.specs.Layout.{bits_of};

use dn_layout::Layout;
use dn_records::Body;
use dn_roster::Roster;
use dn_seal::Said;
use dn_wire::Round;
use std::marker::Model;

/// What is judged: place `k` of the round of a body, after a layout, on what was said under a roster.
#[derive(Drop)]
pub struct Case<'a> {
    roster: &'a Roster,
    body: &'a Body,
    layout: &'a Layout,
    k: u32,
    given: &'a [Said],
}

impl<'a> Model for Case<'a> {
    ghost use Rattle.dn_trace.specs.Trial.{Trial, CanJudge};

    ghost Value = { Trial };

    ghost view = { λ c. record { roster = c.roster.now; body = c.body.now; layout = c.layout.now; k = c.k; given = c.given.now } };

    ghost invariant = { λ c. CanJudge record { roster = c.roster.now; body = c.body.now; layout = c.layout.now; k = c.k; given = c.given.now } };
}

impl<'a> Case<'a> {
    ghost use Rattle.dn_trace.specs.Trial.{Trial, CanJudge, round_of, servers_of};

    pub fn new(
        roster: &'a Roster,
        body: &'a Body,
        layout: &'a Layout,
        k: u32,
        given: &'a [Said],
    ) -> Case<'a>
        requires { CanJudge record { roster = roster.now; body = body.now; layout = layout.now; k = k; given = given.now } }
        ensures { result ≡ record { roster = roster.now; body = body.now; layout = layout.now; k = k; given = given.now } }
    {
        Case {
            roster,
            body,
            layout,
            k,
            given,
        }
    }

    pub fn roster(&self) -> &'a Roster
        ensures { result.now ≡ self.now.roster }
    {
        self.roster
    }

    pub fn body(&self) -> &'a Body
        ensures value { result.now ≡ self.now.body }
        ensures fits { CanJudge self.now }
    {
        self.body
    }

    pub fn round(&self) -> Round
        ensures { result ≡ round_of self.now }
    {
        self.body.r
    }

    pub fn place(&self) -> u32
        ensures { result ≡ self.now.k }
    {
        self.k
    }

    /// How many bits the round has.
    pub fn bits(&self) -> u32
        ensures { result ≡ bits_of self.now.layout }
    {
        self.layout.bits()
    }

    /// What was said.
    pub fn given(&self) -> &'a [Said]
        ensures value { result.now ≡ self.now.given }
        ensures fits { CanJudge self.now }
    {
        self.given
    }

    pub fn clients(&self) -> u32
        ensures { result ≡ length self.now.roster.clients }
    {
        self.roster.clients()
    }

    pub fn servers(&self) -> u32
        ensures { result ≡ servers_of self.now }
    {
        self.roster.servers()
    }
}
