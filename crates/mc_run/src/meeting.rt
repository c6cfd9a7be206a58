//! Where the branches of a run wait for each other.

use crate::{Branch, Manner, Meet};
use std::sync::atomic::{AtomicU64, Ordering};
use std::sync::{Condvar, Mutex, Wait};
use std::thread::Parker;
use std::time::Duration;

/// How often a branch with a later request looks whether the other one is as far: some 50 microseconds, which is two exchanges with a
/// server on the same machine.
const TURNS: u32 = 7_500;

/// How often the branch that comes second to the first meeting looks whether the other one runs again: some 2 microseconds.
const TURNS_UNTIL_AWAKE: u32 = 300;

/// How far a branch is that has its first request ready.
const READY: u64 = 1;

/// How far it is once both have come, and it runs again if it slept. With each later request that is ready it is one further.
const AWAKE: u64 = 2;

/// How long a look takes, about.
pub(crate) const NANOSECONDS_OF_TURN: u32 = 7;

/// A branch that is late by more than this sleeps: a sleep of less would take that long.
const SPUN_NANOSECONDS: u32 = 100_000;

/// How many bytes of its stack a new thread writes to before its first meeting: more than a call takes.
const STACK_TOUCHED: usize = 32_768;

/// A meeting of both branches. No proof rests on it: without it a run would be as right, and would find fewer races.
#[derive(Drop)]
pub(crate) struct Meeting {
    meet: Meet,
    /// Whether the branch that is apart runs on a thread that was made for this run.
    is_beside_new: bool,
    /// How far each branch is; the greatest number once it has no more requests.
    a_at: AtomicU64,
    b_at: AtomicU64,
    /// Who sleeps until a first request comes looks at these numbers while it holds the lock, and who changes one under which another
    /// may sleep takes the lock before it notifies, so that nobody sleeps through what has come.
    lock: Mutex<()>,
    came: Condvar,
}

/// One branch's place in a meeting.
#[derive(Clone, Copy)]
pub(crate) struct Seat<'m> {
    meeting: &'m Meeting,
    branch: Branch,
}

impl Meeting {
    /// A meeting to which nobody has come, of the caller's thread and one that is made for this run.
    pub(crate) fn beside_new_thread(meet: Meet) -> Meeting {
        Meeting::new(meet, true)
    }

    /// The same of the caller's thread and one that is kept.
    pub(crate) fn over_desk(meet: Meet) -> Meeting {
        Meeting::new(meet, false)
    }

    fn new(meet: Meet, is_beside_new: bool) -> Meeting {
        Meeting {
            meet,
            is_beside_new,
            a_at: AtomicU64::new(0),
            b_at: AtomicU64::new(0),
            lock: Mutex::new(()),
            came: Condvar::new(),
        }
    }

    /// The place of a branch.
    pub(crate) fn seat(&self, branch: Branch) -> Seat<'_> {
        Seat {
            meeting: self,
            branch,
        }
    }
}

impl Seat<'_> {
    /// Comes with the branch's request of this index, counted from 0, which is ready; and waits for the other branch as the manner
    /// of the meeting says, and after that once more if this branch is late.
    fn come<R: Wait>(&self, rt: &R, index: u32) {
        match (self.meeting.meet.manner, index) {
            (Manner::Never, _) => {}
            (Manner::First | Manner::Each, 0) => {
                self.wait(rt);
                // The kernel needs some time to wake the branch that came first, and the other one would go ahead meanwhile.
                let _ = self.look(AWAKE, TURNS_UNTIL_AWAKE);
                self.wait_late(rt);
            }
            (Manner::First, _) => {}
            (Manner::Each, _) => {
                let _ = self.look(AWAKE + u64::from(index), TURNS);
            }
        }
    }

    /// Whether the request of this index is noted to begin before the branch comes with it: the first one, unless the branch is late.
    /// No reply has come by then, so the recorded order loses nothing, and after the meeting the branch has only to send.
    fn notes_begin_first(&self, index: u32) -> bool {
        let is_late = match self.meeting.meet.late {
            Some(late) => late.branch == self.branch,
            None => false,
        };
        index == 0 && !is_late
    }

    /// Says that the branch has no more requests, so that the other one doesn't wait for it.
    pub(crate) fn leave<R: Wait>(&self, rt: &R) {
        self.mine().store(u64::MAX, Ordering::SeqCst);
        self.wake(rt);
    }

    /// Waits until the other branch has come. It sleeps at once: a branch that looked would keep its processor from the server's thread
    /// that has answered P, or from the other branch. The kernel would move these, and the server would take both requests far apart.
    fn wait<R: Wait>(&self, rt: &R) {
        if self.meeting.is_beside_new && self.meeting.meet.apart == self.branch {
            // The calls of P wrote to the stack of the other thread.
            touch_stack(self.other().load(Ordering::SeqCst) as usize);
        }
        self.mine().store(READY, Ordering::SeqCst);
        if self.other().load(Ordering::SeqCst) >= READY {
            self.wake(rt);
        } else {
            // The other branch comes after this one has said that it did, if it comes, and so it wakes it.
            self.sleep(rt);
        }
    }

    /// Sleeps until the other branch has come.
    fn sleep<R: Wait>(&self, rt: &R) {
        let other = self.other();
        let locked = self.meeting.lock.lock(rt);
        let _ = self
            .meeting
            .came
            .wait_while(rt, locked, |_| other.load(Ordering::SeqCst) < READY);
    }

    /// Wakes the other branch if it sleeps: this one has said that it came. A branch that is about to sleep holds the lock from its
    /// last look until it sleeps.
    fn wake<R: Wait>(&self, rt: &R) {
        drop(self.meeting.lock.lock(rt));
        self.meeting.came.notify_one();
    }

    /// If this branch is the late one, waits as long as it is late. The other one goes on meanwhile, so that its request arrives
    /// first, and a race that opens later in a request than the other one's comes is met too.
    fn wait_late<R: Wait>(&self, rt: &R) {
        let Some(late) = self.meeting.meet.late else {
            return;
        };
        if late.branch != self.branch {
            return;
        }
        if late.nanoseconds <= SPUN_NANOSECONDS {
            self.spin(late.nanoseconds / NANOSECONDS_OF_TURN);
        } else {
            let time = Duration::from_nanos(u64::from(late.nanoseconds));
            Parker::new().park_timeout(rt, time);
        }
    }

    /// Takes as many turns as [`Seat::look`] would, and looks for nothing.
    fn spin(&self, turns: u32) {
        let taken = AtomicU64::new(0);
        'turns: for _ in 0..turns {
            self.other().load(Ordering::SeqCst);
            taken.fetch_add(1, Ordering::SeqCst);
        }
    }

    /// Is this far, looks this often whether the other branch is too, and answers whether it saw that.
    fn look(&self, far: u64, times: u32) -> bool {
        let other = self.other();
        self.mine().store(far, Ordering::SeqCst);
        let turns = AtomicU64::new(0);
        'turns: for _ in 0..times {
            if other.load(Ordering::SeqCst) >= far {
                return true;
            }
            // what makes a turn take some 7 nanoseconds
            turns.fetch_add(1, Ordering::SeqCst);
        }
        false
    }

    /// How far the branch is.
    fn mine(&self) -> &AtomicU64 {
        match self.branch {
            Branch::A => &self.meeting.a_at,
            Branch::B => &self.meeting.b_at,
        }
    }

    /// How far the other branch is.
    fn other(&self) -> &AtomicU64 {
        match self.branch {
            Branch::A => &self.meeting.b_at,
            Branch::B => &self.meeting.a_at,
        }
    }
}

/// Writes to as much of the thread's stack as a call takes. The kernel adds the pages of a new thread's stack one by one, each when it
/// is first written to, and a branch for which it does so after the meeting comes late. No compiler knows the number `any`, so none
/// leaves the writing out.
pub(crate) fn touch_stack(any: usize) {
    let mut pages = [0u8; STACK_TOUCHED];
    pages[any % STACK_TOUCHED] = 1;
    let found = AtomicU64::new(0);
    found.store(u64::from(pages[any / 2 % STACK_TOUCHED]), Ordering::SeqCst);
}

/// Comes with the request of this index, unless its begin is noted first.
pub(crate) fn come_before_begin<R: Wait>(rt: &R, seat: Option<&Seat<'_>>, index: u32) {
    if let Some(seat) = seat {
        if !seat.notes_begin_first(index) {
            seat.come(rt, index);
        }
    }
}

/// Comes with the request of this index, whose begin was noted, if that was first.
pub(crate) fn come_after_begin<R: Wait>(rt: &R, seat: Option<&Seat<'_>>, index: u32) {
    if let Some(seat) = seat {
        if seat.notes_begin_first(index) {
            seat.come(rt, index);
        }
    }
}
