//! The journal of a list of events.
ghost use Rattle.std.specs.Prelude.{◌≡◌, ◌+◌, ◌-◌, ◌<◌, ◌≤◌, ◌^◌, [], ◌∷◌, drop, length, map, slice_get, take, Some, IfOk, OnOk};
ghost use Rattle.std.specs.VecDeque.{deque_capacity};
ghost use Rattle.ec_commands.specs.declared.limits.TheConstants.{MOST_PAST};
ghost use Rattle.ec_axioms.specs.Events.{plain_update};
ghost use Rattle.ec_past.specs.Logged.{plain_records};
ghost use Rattle.ec_past.specs.Journals.{latest_within, weight_of, weights_of, with_records};
ghost use Rattle.ec_past.specs.Ways.{redos_of_all, undos_of_all, way_between};

use crate::log_record::LogRecord;
use crate::ways::{push_redos, push_undos};
use ec_axioms::Update;
use ec_commands::MOST_PAST;
use ec_lists::{NoMemory, add_counts};
use ec_moment::Moment;
use ec_terms::Sequence;
use std::alloc::Global;
use std::collections::VecDeque;
use std::marker::Model;

/// How many updates were accepted, and the records of the latest of them: of as many as together weigh no more than `MOST_PAST`.
#[derive(Drop)]
pub(crate) struct Journal<T: Moment> {
    count: u64,
    /// What the kept updates weigh together.
    weight: u64,
    /// The latest first. There is always room for one more than may be kept, so that an update is kept without memory.
    kept: VecDeque<Sequence<LogRecord<T>>>,
}

impl<T: Moment> Model for Journal<T> {
    ghost use Rattle.std.specs.Prelude.{map};
    ghost use Rattle.std.specs.VecDeque.{deque_capacity};
    ghost use Rattle.ec_past.specs.Journals.{IsJournal, PlainJournal};
    ghost use Rattle.ec_past.specs.Logged.{plain_records};

    ghost Value = { PlainJournal };

    ghost view = { λ journal. record { count = journal.count; kept = map (plain_records T.rank) journal.kept.items } };

    ghost invariant = { λ journal. IsJournal journal.weight journal.kept.items (deque_capacity journal.kept) };
}

impl<T: Moment> Journal<T> {
    /// The journal of no update. `Err`: memory ran out.
    pub(crate) fn new(alloc: Global) -> Result<Journal<T>, NoMemory>
        ensures { IfOk result (λ journal. journal ≡ record { count = 0; kept = [] }) }
    {
        Ok(Journal {
            count: 0,
            weight: 0,
            kept: VecDeque::with_capacity(alloc, MOST_PAST as usize + 1)?,
        })
    }

    /// How many updates were accepted.
    pub(crate) fn count(&self) -> u64
        ensures { result ≡ self.now.count }
    {
        self.count
    }

    /// The least number of accepted updates whose list follows from what is kept.
    pub(crate) fn first(&self) -> u64
        ensures { result ≡ self.now.count - length self.now.kept }
    {
        self.count.saturating_sub(self.kept.len() as u64)
    }

    /// The records of the update at a place, from that of the latest, 0, on.
    pub(crate) fn records(&self, place: usize) -> &[LogRecord<T>]
        requires { place < length self.now.kept }
        ensures { slice_get self.now.kept place ≡ Some (plain_records T.rank result.now) }
    {
        self.kept[place].as_slice()
    }

    /// The updates that take back what is kept from one place to another. `Err`: memory ran out.
    fn undos(&self, alloc: Global, low: usize, high: usize) -> Result<Sequence<Update<T>>, NoMemory>
        requires order { low ≤ high }
        requires kept { high ≤ length self.now.kept }
        ensures { IfOk result (λ way. map (plain_update T.rank) way ≡ undos_of_all (drop low (take high self.now.kept))) }
    {
        let mut way = Vec::new(alloc);
        for place in low..high {
            push_undos(alloc, &mut way, self.records(place))?;
        }
        Ok(Sequence::from_vec(way))
    }

    /// The updates that make again what is kept from one place to another. `Err`: memory ran out.
    fn redos(&self, alloc: Global, low: usize, high: usize) -> Result<Sequence<Update<T>>, NoMemory>
        requires order { low ≤ high }
        requires kept { high ≤ length self.now.kept }
        ensures { IfOk result (λ way. map (plain_update T.rank) way ≡ redos_of_all (drop low (take high self.now.kept))) }
    {
        let mut way = Vec::new(alloc);
        let mut place = high;
        while low < place {
            place -= 1;
            push_redos(alloc, &mut way, self.records(place))?;
        }
        Ok(Sequence::from_vec(way))
    }

    /// The updates that lead from the list after so many accepted updates to the list after so many others, where the updates between
    /// are kept. `Err`: memory ran out.
    pub(crate) fn way(
        &self,
        alloc: Global,
        from: u64,
        to: u64,
    ) -> Result<Sequence<Update<T>>, NoMemory>
        requires from_kept { self.now.count - length self.now.kept ≤ from }
        requires from_past { from ≤ self.now.count }
        requires to_kept { self.now.count - length self.now.kept ≤ to }
        requires to_past { to ≤ self.now.count }
        ensures way { IfOk result (λ way. map (plain_update T.rank) way ≡ way_between self.now from to) }
        ensures few { IfOk result (λ way. length way ≤ MOST_PAST) }
    {
        if to <= from {
            let low = (self.count - from) as usize;
            self.undos(alloc, low, (self.count - to) as usize)
        } else {
            let low = (self.count - to) as usize;
            self.redos(alloc, low, (self.count - from) as usize)
        }
    }

    /// Asks for room for one update more. `Err`: no number counts it.
    pub(crate) fn reserve(&self) -> Result<(), NoMemory>
        ensures { OnOk result (self.now.count + 1 < 2 ^ 64) }
    {
        add_counts(self.count as usize, 1)?;
        Ok(())
    }

    /// Counts an accepted update and keeps its records, and drops the oldest that there is no room for. It takes no memory.
    pub(crate) fn settle(&mut self, records: Sequence<LogRecord<T>>)
        requires count { self.old.count + 1 < 2 ^ 64 }
        requires few { length records < 2 ^ 32 }
        ensures { self.new ≡ with_records (plain_records T.rank records) self.old }
    {
        self.count += 1;
        let weight = self.weight + weight_of(&records);
        self.kept.push_front_reserved(records);
        self.weight = drop_oldest(&mut self.kept, weight);
    }
}

/// What an update with these records weighs.
fn weight_of<T: Moment>(records: &Sequence<LogRecord<T>>) -> u64
    ensures { result ≡ weight_of records.now }
{
    if records.len() == 0 {
        1
    } else {
        records.len() as u64
    }
}

/// Drops the oldest updates as long as all together weigh more than there is room for, and answers what is left weighs.
fn drop_oldest<T: Moment>(kept: &mut VecDeque<Sequence<LogRecord<T>>>, weight: u64) -> u64
    requires { weight ≡ weights_of kept.old.items }
    ensures kept { kept.new.items ≡ latest_within MOST_PAST kept.old.items }
    ensures weight { result ≡ weights_of kept.new.items }
    ensures few { result ≤ MOST_PAST }
    ensures capacity { deque_capacity kept.new ≡ deque_capacity kept.old }
{
    let mut weight = weight;
    while weight > MOST_PAST {
        let Some(oldest) = kept.pop_back() else {
            unreachable!()
        };
        weight -= weight_of(&oldest);
    }
    weight
}
