//! What was ever sent, issued and held.

ghost use Rattle.std.specs.Prelude.{◌≡◌, ◌++◌, IfOk, OnErr, OnOk, find, if◌then◌else◌, length, map, option_copied, position, take};
ghost use Rattle.ospf_base.specs.Keys.{same_key};
ghost use Rattle.ospf_base.specs.declared.ids.LsaKey.{LsaKey};
ghost use Rattle.ospf_world.specs.declared.logs.Run.{Run};
ghost use Rattle.ospf_lsdb.specs.Moments.{among};
ghost use Rattle.ospf_world.specs.Logs.{held_by, holdings_by, issued_in, run_of, sent_as_datagram};

use ospf_area::{Outputs, Sent};
use ospf_base::{Instance, LsaKey, NO_FLOOR, RouterId};
use ospf_lsa::Lsa;
use std::alloc::{AllocError, Global};
use std::marker::Model;

/// A numbering run, named by how many LSAs the world had issued when it began.
/// Its numbers are above its base.
#[derive(Clone, Copy, Debug, PartialEq, Eq)]
pub struct Run {
    pub name: usize,
    pub base: i32,
}

/// An LSA as it was issued, and its numbering run.
#[derive(Drop)]
pub struct Issued {
    pub lsa: Lsa,
    pub run: Run,
}

/// A datagram as it was sent, and the router that sent it.
#[derive(Drop)]
pub struct Datagram {
    pub router: RouterId,
    pub sent: Sent,
}

/// A router that installed, issued or acknowledged an instance.
#[derive(Clone, Copy, Debug, PartialEq, Eq)]
pub struct Holding {
    pub router: RouterId,
    pub instance: Instance,
}

/// All datagrams ever sent, all LSAs ever issued, and who ever installed, issued
/// or acknowledged which instance.
#[derive(Drop)]
pub struct Logs {
    datagrams: Vec<Datagram>,
    issued: Vec<Issued>,
    held: Vec<Holding>,
}

impl Model for Logs {
    ghost use Rattle.ospf_world.specs.Logs.{LogsValue};

    ghost Value = { LogsValue };

    ghost view = { λ l. record {
      datagrams = l.datagrams.items;
      issued = l.issued.items;
      held = l.held.items;
    } };
}

impl Logs {
    ghost use Rattle.std.specs.Prelude.{[]};
    ghost use Rattle.ospf_world.specs.Logs.{BeginAgain, LogsTake, StillHave};

    /// Nothing was sent, issued or held.
    pub fn new(alloc: Global) -> Logs
        ensures { result ≡ record { datagrams = []; issued = []; held = [] } }
    {
        Logs {
            datagrams: Vec::new(alloc),
            issued: Vec::new(alloc),
            held: Vec::new(alloc),
        }
    }

    /// The datagrams, in the order in which they were sent.
    pub fn datagrams(&self) -> &[Datagram]
        ensures { result.now ≡ self.now.datagrams }
    {
        &self.datagrams
    }

    /// The LSAs, in the order in which they were issued.
    pub fn issued(&self) -> &[Issued]
        ensures { result.now ≡ self.now.issued }
    {
        &self.issued
    }

    /// Who installed, issued or acknowledged what.
    pub fn held(&self) -> &[Holding]
        ensures { result.now ≡ self.now.held }
    {
        &self.held
    }

    /// The logs grow by the outputs of a router, and the runs of the
    /// keys that have ended begin again.
    ///
    /// `AllocError` where memory runs out: then the logs are unchanged.
    pub(crate) fn take(
        &mut self,
        router: RouterId,
        first: Run,
        later: &mut Vec<(LsaKey, Run)>,
        outputs: Outputs,
    ) -> Result<(), AllocError>
        ensures logs { OnOk result (LogsTake self.old self.new router first later.old.items
            outputs) }
        ensures runs { OnOk result (BeginAgain (length self.new.issued) outputs.ended
            later.old.items later.new.items) }
        ensures none { OnErr result (self.new ≡ self.old) }
    {
        let sent = self.datagrams.len();
        let issued = self.issued.len();
        let held = self.held.len();
        let taken = self.go_on(router, first, later, outputs);
        if taken.is_err() {
            self.datagrams.truncate(sent);
            self.issued.truncate(issued);
            self.held.truncate(held);
        }
        taken
    }

    // The logs grow, and the runs that have ended begin again.
    fn go_on(
        &mut self,
        router: RouterId,
        first: Run,
        later: &mut Vec<(LsaKey, Run)>,
        outputs: Outputs,
    ) -> Result<(), AllocError>
        ensures logs { OnOk result (LogsTake self.old self.new router first later.old.items
            outputs) }
        ensures runs { OnOk result (BeginAgain (length self.new.issued) outputs.ended
            later.old.items later.new.items) }
        ensures still { StillHave self.old self.new }
    {
        let ended = self.grow(router, first, later, outputs)?;
        let run = Run {
            name: self.issued.len(),
            base: NO_FLOOR,
        };
        begin_again(later, &ended, run)
    }

    // The logs grow by the outputs of a router; it returns the keys whose run has ended.
    fn grow(
        &mut self,
        router: RouterId,
        first: Run,
        later: &[(LsaKey, Run)],
        outputs: Outputs,
    ) -> Result<Vec<LsaKey>, AllocError>
        ensures logs { OnOk result (LogsTake self.old self.new router first later.now outputs) }
        ensures ended { IfOk result (λ keys. keys.items ≡ outputs.ended) }
        ensures still { StillHave self.old self.new }
    {
        let Outputs {
            sent,
            taken,
            issued,
            ended,
        } = outputs;
        log_taken(&mut self.held, router, &taken)?;
        log_held(&mut self.held, router, &issued)?;
        log_sent(&mut self.datagrams, router, sent)?;
        log_issued(&mut self.issued, first, later, issued)?;
        Ok(ended)
    }
}

// The run of each of these keys begins again.
fn begin_again(later: &mut Vec<(LsaKey, Run)>, ended: &[LsaKey], run: Run) -> Result<(), AllocError>
    ensures { OnOk result ((first : Run) (key : LsaKey) →
        run_of first later.new.items key
        ≡ (if among ended.now key then run else run_of first later.old.items key)) }
{
    for key in ended {
        begin_one(later, *key, run)?;
    }
    Ok(())
}

// The run of this key begins again, in the place of its later run if it has one.
fn begin_one(later: &mut Vec<(LsaKey, Run)>, key: LsaKey, run: Run) -> Result<(), AllocError>
    ensures { OnOk result ((first : Run) (other : LsaKey) →
        run_of first later.new.items other
        ≡ (if same_key key other then run else run_of first later.old.items other)) }
{
    match later_place(later, &key) {
        Some(at) => later[at] = (key, run),
        None => later.push((key, run))?,
    }
    Ok(())
}

// The place of the later run of a key.
fn later_place(later: &[(LsaKey, Run)], key: &LsaKey) -> Option<usize>
    ensures { result ≡ position (λ e. same_key e.0 key.now) later.now }
{
    later.iter().position(|entry| entry.0.is_same(key))
}

// The log of holdings grows by the instances that were taken.
fn log_taken(log: &mut Vec<Holding>, router: RouterId, taken: &[Instance]) -> Result<(), AllocError>
    ensures ok { OnOk result (log.new.items ≡ log.old.items ++ map (held_by router) taken.now) }
    ensures still { take (length log.old.items) log.new.items ≡ log.old.items }
{
    for instance in taken {
        log.push(Holding {
            router,
            instance: *instance,
        })?;
    }
    Ok(())
}

// The log of holdings grows by the LSAs that were issued.
fn log_held(log: &mut Vec<Holding>, router: RouterId, issued: &[Lsa]) -> Result<(), AllocError>
    ensures ok { OnOk result (log.new.items ≡ log.old.items
        ++ map (holdings_by router) issued.now) }
    ensures still { take (length log.old.items) log.new.items ≡ log.old.items }
{
    for lsa in issued {
        log.push(Holding {
            router,
            instance: lsa.view().instance(),
        })?;
    }
    Ok(())
}

// The log of datagrams grows by these.
fn log_sent(log: &mut Vec<Datagram>, router: RouterId, sent: Vec<Sent>) -> Result<(), AllocError>
    ensures ok { OnOk result (log.new.items ≡ log.old.items
        ++ map (sent_as_datagram router) sent.items) }
    ensures still { take (length log.old.items) log.new.items ≡ log.old.items }
{
    for datagram in sent {
        log.push(Datagram {
            router,
            sent: datagram,
        })?;
    }
    Ok(())
}

// The log of LSAs grows by these, each in the run that its key is in.
fn log_issued(
    log: &mut Vec<Issued>,
    first: Run,
    later: &[(LsaKey, Run)],
    issued: Vec<Lsa>,
) -> Result<(), AllocError>
    ensures ok { OnOk result (log.new.items ≡ log.old.items
        ++ map (issued_in first later.now) issued.items) }
    ensures still { take (length log.old.items) log.new.items ≡ log.old.items }
{
    for lsa in issued {
        let run = run_of(first, later, &lsa.view().key());
        log.push(Issued { lsa, run })?;
    }
    Ok(())
}

// The run that a key is in: its later one, or else the first.
#[tactic(auto, unfolding(crate::specs::Logs::run_of))]
fn run_of(first: Run, later: &[(LsaKey, Run)], key: &LsaKey) -> Run
    ensures { result ≡ run_of first later.now key.now }
{
    match later_run(later, key) {
        Some(entry) => entry.1,
        None => first,
    }
}

// The later run of a key.
fn later_run<'a>(later: &'a [(LsaKey, Run)], key: &LsaKey) -> Option<&'a (LsaKey, Run)>
    ensures { option_copied result ≡ find (λ e. same_key e.0 key.now) later.now }
{
    later.iter().find(|entry| entry.0.is_same(key))
}
