//! What threads do at once.

ghost use Rattle.std.specs.Prelude.{All};
ghost use Rattle.hub_jobs.specs.Inner.{Each};

use std::thread;
use std::thread::Threads;

/// What one thread does.
pub trait Task {
    ghost ready: { Self → Type 0 };

    ghost does: { Self → Self → Type 0 };

    fn run(&mut self)
        requires { ready self.old }
        ensures { does self.old self.new };
}

/// Does all tasks at once, each on a thread of its own.
pub fn run_all<T: Task + Send, R: Threads + Sync>(rt: &R, tasks: &mut [T])
    requires { All T.ready tasks.old }
    ensures { Each T.does tasks.old tasks.new }
{
    let threads = tasks.len().max(1);
    thread::for_each_mut(rt, tasks, threads, &|_, task| task.run());
}
