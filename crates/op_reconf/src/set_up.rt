ghost use Rattle.std.specs.Prelude.{◌≡◌, ◌==◌, ◌<◌, ◌≤◌, nat_le, true, Option, length, map, OnOk};
ghost use Rattle.statement.specs.declared.member.Member.{Member};
ghost use Rattle.statement.specs.Config.{quorum, weight_together};
ghost use Rattle.port.specs.Call.{call_of};
ghost use Rattle.port.specs.Cause.{MemberCause, member_cause_of};
ghost use Rattle.port.specs.Heard.{heard_of};

use crate::verdict::reason_of;
use nim_base::NoMemory;
use port::{EndorserCall, LinkAnswer, Reason};
use statement::Config;
use std::alloc::Global;
use std::marker::Model;
use view_ledger::weight;

/// The members of a view are set up, one after the other, in rising ids: each is asked to belong to the view, and where it
/// does, to begin in it.
#[derive(Drop)]
pub struct SetUp {
    config: Config,
    initialize: EndorserCall,
    activate: EndorserCall,
    asked: usize,
    // Whether the next member belongs to the view already.
    begun: bool,
    done: Vec<u32>,
    reasons: Vec<(u32, Reason)>,
}

impl Model for SetUp {
    ghost use Rattle.std.specs.Prelude.{map};
    ghost use Rattle.port.specs.Call.{call_of};
    ghost use Rattle.port.specs.Cause.{member_cause_of};
    ghost use Rattle.op_reconf.specs.SettingUp.{SettingUp};

    ghost Value = { SettingUp };

    ghost view = { λ set_up. record { ask = record { initialize = call_of set_up.initialize; activate = call_of set_up.activate; members = set_up.config }; asked = set_up.asked; begun = set_up.begun; done = set_up.done.items; reasons = map (λ r. (r.0, member_cause_of r.1)) set_up.reasons.items } };
}

impl SetUp {
    ghost use Rattle.op_reconf.specs.SettingUp.{IsMember, Gives, fresh, next_call, passed, taken};

    /// Nobody is asked yet.
    pub fn new(
        alloc: Global,
        config: Config,
        initialize: EndorserCall,
        activate: EndorserCall,
    ) -> SetUp
        ensures { result ≡ fresh (record { initialize = call_of initialize; activate = call_of activate; members = config }) }
    {
        SetUp {
            config,
            initialize,
            activate,
            asked: 0,
            begun: false,
            done: Vec::new(alloc),
            reasons: Vec::new(alloc),
        }
    }

    /// The member whose turn it is.
    pub fn id(&self) -> u32
        requires { self.now.asked < length self.now.ask.members }
        ensures { (member : Member) × IsMember self.now.ask self.now.asked member × (result ≡ member.id) }
    {
        self.config.members()[self.asked].id
    }

    /// What it is asked.
    pub fn call(&self) -> &EndorserCall
        ensures { call_of result.now ≡ next_call self.now }
    {
        if self.begun {
            &self.activate
        } else {
            &self.initialize
        }
    }

    /// What was heard of the call to the member with this id, whose turn it is.
    pub fn take(&mut self, id: u32, heard: LinkAnswer) -> Result<(), NoMemory>
        requires { self.old.asked < length self.old.ask.members }
        ensures { OnOk result ((reason : Option MemberCause) × Gives (heard_of heard) reason × (self.new ≡ taken id reason self.old)) }
    {
        match reason_of(heard)? {
            Some(reason) => self.blame(id, reason),
            None if self.begun => self.finish(id),
            None => {
                self.begun = true;
                Ok(())
            }
        }
    }

    fn blame(&mut self, id: u32, reason: Reason) -> Result<(), NoMemory>
        requires { self.old.asked < length self.old.ask.members }
        ensures { OnOk result (self.new ≡ taken id (Some (member_cause_of reason)) self.old) }
    {
        self.reasons.push((id, reason))?;
        self.pass();
        Ok(())
    }

    fn finish(&mut self, id: u32) -> Result<(), NoMemory>
        requires turn { self.old.asked < length self.old.ask.members }
        requires begun { self.old.begun ≡ true }
        ensures { OnOk result (self.new ≡ taken id None self.old) }
    {
        self.done.push(id)?;
        self.pass();
        Ok(())
    }

    // The next member's turn comes.
    fn pass(&mut self)
        requires { self.old.asked < length self.old.ask.members }
        ensures { self.new ≡ passed self.old }
    {
        let _members = self.config.members();
        self.asked += 1;
        self.begun = false;
    }

    /// Whether all members were asked.
    pub fn is_over(&self) -> bool
        ensures { result ≡ (self.now.asked == length self.now.ask.members) }
    {
        self.asked == self.config.members().len()
    }

    /// Whether those that are done are a quorum.
    pub fn is_quorum(&self) -> bool
        ensures { let members = self.now.ask.members in result ≡ nat_le (quorum members) (weight_together members self.now.done) }
    {
        self.config.quorum() <= weight_together(&self.config, &self.done)
    }

    /// The config, and the reasons of the members that aren't done.
    pub fn into_parts(self) -> (Config, Vec<(u32, Reason)>)
        ensures config { result.0 ≡ self.ask.members }
        ensures reasons { map (λ r. (r.0, member_cause_of r.1)) result.1.items ≡ self.reasons }
    {
        (self.config, self.reasons)
    }
}

fn weight_together(config: &Config, ids: &[u32]) -> usize
    ensures { result ≡ weight_together config.now ids.now }
{
    let mut got = 0;
    for id in ids {
        got += weight(config, *id);
    }
    got
}
