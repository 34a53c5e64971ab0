//! Judges a request that comes at a moment: makes the entry of a new one, and names the class of any other.
ghost use Rattle.std.specs.Prelude.{◌≡◌};
ghost use Rattle.tb_records.specs.Messages.{IsLawful};
ghost use Rattle.tb_sessions.specs.Judged.{class_of};
ghost use Rattle.tb_machine.specs.Judging.{IsJudged};

use crate::entries::Entry;
use crate::machines::Machine;
use std::alloc::Allocator;
use tb_records::Request;
use tb_sessions::Class;

/// What a request is to a machine, at a moment.
#[derive(Drop)]
pub enum Judged {
    /// A new one, with its entry, which may come next.
    New(Entry),
    /// A new one, but there is no time left for it.
    NoTime,
    /// Not a new one: its class, and the request.
    Known(Class, Request),
}

impl<A: Allocator + Clone> Machine<A> {
    /// Judges a request that comes at a moment. The entry of a new one has the next commit number, at its [`Machine::next_time`], and may come
    /// next.
    pub fn judge(&self, moment: u64, request: Request) -> Judged
        ensures judged { IsJudged result self.now (moment, request) }
        ensures lawful { IsLawful request }
    {
        let class = self.class(&request);
        self.judge_as(class, moment, request)
    }

    /// As `judge`, for a request whose class is known.
    pub(crate) fn judge_as(&self, class: Class, moment: u64, request: Request) -> Judged
        requires { class ≡ class_of self.now.rows request }
        ensures judged { IsJudged result self.now (moment, request) }
        ensures lawful { IsLawful request }
    {
        let events = request.body().event_count() as u64;
        let Class::New = class else {
            return Judged::Known(class, request);
        };
        match self.next_time(moment, events) {
            Some(time) => Judged::New(Entry {
                commit: self.commit + 1,
                time,
                request,
            }),
            None => {
                drop(request);
                Judged::NoTime
            }
        }
    }
}
