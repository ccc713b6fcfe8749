//! What a machine asks of its host.

ghost use Rattle.std.specs.Prelude.{◌≡◌, true};
ghost use Rattle.grain_host.specs.Law.{Law, IsLawful, native_of};
ghost use Rattle.grain_host.specs.Answers.{Answers, Resumes, Hears};

use crate::host_answers::{Args, HostAnswer, ProgressAnswer};
use crate::host_faults::HostFault;
use grain_value::{Dynamic, Kinds, Native};
use std::alloc::Global;

/// A host. Unless it answers that there is no memory, its answer, what it writes into the receiver
/// and its state afterwards are functions of its state and of what it is given. Where it answers
/// that there is no memory, it and the receiver are as they were.
pub trait Host {
    ghost law: { Law Self };

    /// The native of this name for arguments of these kinds, if there is one. No call changes what
    /// is found.
    fn resolve(&self, name: &str, kinds: &Kinds) -> Option<Native>
        ensures { result ≡ native_of law self.now name.now kinds.now };

    /// Calls the native of this key. A receiver stays in the arguments with its flag, and its value
    /// stays too unless the key writes. The values may be taken.
    fn call(&mut self, alloc: Global, key: u64, args: &mut Args) -> HostAnswer
        ensures { Answers law self.old key args.old result self.new args.new };

    /// Hears what came of what it asked for with this token, and goes on. The receiver is as the host
    /// left it, and there are no values. A receiver stays in the arguments with its flag, and its value
    /// stays too unless the native that asked writes.
    fn resume(
        &mut self,
        alloc: Global,
        token: u64,
        outcome: Result<Dynamic, HostFault>,
        args: &mut Args,
    ) -> HostAnswer
        ensures { Resumes law self.old token outcome args.old result self.new args.new };

    /// Hears that it will not be resumed by this token.
    fn forget(&mut self, token: u64)
        ensures { self.new ≡ law.forget_after self.old token };

    /// Hears that a run has taken `count` operations, and says whether it goes on.
    fn progress(&mut self, alloc: Global, count: u64) -> ProgressAnswer
        ensures { Hears law self.old count result self.new };

    /// It does nothing. Its clause says that all that the host may hand over, beside what it is
    /// given and what it keeps for tokens, is clean: no cell stands directly inside an array or a map.
    /// A machine asks for it once, where a run begins.
    fn vouch(&self)
        ensures { law.holds_clean self.now ≡ true };

    ghost lawful: { IsLawful law };
}
