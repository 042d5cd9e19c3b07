//! What the threads of a server share beside its hub: whether it is to end, and counts of what they do.

use std::alloc::{AllocError, Global};
use std::sync::Arc;
use std::sync::atomic::{AtomicU64, Ordering};

/// A number that threads count in.
#[derive(Drop)]
pub struct Counter(AtomicU64);

impl Counter {
    fn new() -> Self {
        Counter(AtomicU64::new(0))
    }

    /// Counts so many more.
    pub fn add(&self, more: u64) {
        self.0.fetch_add(more, Ordering::SeqCst);
    }

    /// Counts one more.
    pub fn add_one(&self) {
        self.add(1);
    }

    /// Counts one less.
    pub fn take_one(&self) {
        self.0.fetch_sub(1, Ordering::SeqCst);
    }

    /// What is counted now.
    pub fn counted(&self) -> u64 {
        self.0.load(Ordering::SeqCst)
    }
}

/// Whether the server is to end, and its counts.
#[derive(Drop)]
pub struct Activity {
    ending: AtomicU64,
    /// Connections that wait for their first byte, or for a worker, those of tunnels among them.
    pub waiting: Counter,
    /// Connections that workers serve.
    pub serving: Counter,
    /// Connections that were served.
    pub served: Counter,
    /// Connections that were silent for too long before their first byte, or had to leave their place to others.
    pub silent: Counter,
    /// Connections that were closed since too many waited for a worker.
    pub turned_away: Counter,
    /// Requests that were answered.
    pub answered: Counter,
    /// Faults of what connections are read from.
    pub input_faults: Counter,
    /// Faults of what is written to connections.
    pub output_faults: Counter,
    /// Faults of the links to grains.
    pub link_faults: Counter,
    /// Faults of what starts and stops the programs of grains.
    pub spawn_faults: Counter,
    /// Pieces of what those programs printed that couldn't be logged.
    pub log_faults: Counter,
    /// Tunnels that workers serve.
    pub tunnels: Counter,
    /// Tunnels that were served.
    pub tunneled: Counter,
    /// Messages of tunnels that went to grains.
    pub passed: Counter,
}

/// A handle of them, which threads share.
pub type SharedActivity = Arc<Activity, Global>;

impl Activity {
    /// Nothing is counted yet.
    pub fn new(alloc: Global) -> Result<SharedActivity, AllocError> {
        let activity = Activity {
            ending: AtomicU64::new(0),
            waiting: Counter::new(),
            serving: Counter::new(),
            served: Counter::new(),
            silent: Counter::new(),
            turned_away: Counter::new(),
            answered: Counter::new(),
            input_faults: Counter::new(),
            output_faults: Counter::new(),
            link_faults: Counter::new(),
            spawn_faults: Counter::new(),
            log_faults: Counter::new(),
            tunnels: Counter::new(),
            tunneled: Counter::new(),
            passed: Counter::new(),
        };
        Ok(Arc::new(alloc, activity)?)
    }

    /// The server is to end.
    pub fn end(&self) {
        self.ending.store(1, Ordering::SeqCst);
    }

    /// Whether the server is to end.
    pub fn is_ending(&self) -> bool {
        self.ending.load(Ordering::SeqCst) != 0
    }

    /// What is counted, as a line of words and numbers; nothing of a key or a token is in it.
    pub fn line(&self, alloc: Global) -> Result<String, AllocError> {
        format!(in alloc;
            "lumbyte: serving={} waiting={} served={} silent={} turned_away={} answered={} faults_in={} faults_out={} faults_link={} faults_spawn={} faults_log={} tunnels={} tunneled={} passed={}",
            self.serving.counted(),
            self.waiting.counted(),
            self.served.counted(),
            self.silent.counted(),
            self.turned_away.counted(),
            self.answered.counted(),
            self.input_faults.counted(),
            self.output_faults.counted(),
            self.link_faults.counted(),
            self.spawn_faults.counted(),
            self.log_faults.counted(),
            self.tunnels.counted(),
            self.tunneled.counted(),
            self.passed.counted()
        )
    }
}
