//! Laws of the meaning alone. Each is a function that does nothing, whose contract is the law.

ghost use Rattle.std.specs.Prelude.{◌≡◌, ◌<◌, ◌≤◌, ◌⊎◌, ◌+◌, ◌++◌, ◌||◌, [], ◌∷◌, false, true, is_some, length, map, slice_get, take, List, ℕ, Bool, Ok, Option, None, Some};
ghost use Rattle.grain_means.specs.Worlds.{Act, Answer, Failed, Go, World, Setup, Place, Frame, InFrame};
ghost use Rattle.grain_means.specs.CatchBlocks.{Catches};
ghost use Rattle.grain_means.specs.Rules.{called, chain_over, function_called, new_root};
ghost use Rattle.grain_means.specs.Rules.{Destination, ToSlot, ToThis, call_over, curried_in, function_by_name, held_at, is_read_only, is_stop, marked_or, receiver_called, receiver_over};
ghost use Rattle.grain_means.specs.Causes.{Caused};
ghost use Rattle.grain_means.specs.Causes.Spots.{ChainWalk, ComesTo, Falls, InsteadFails, NativeFails, OwnRow, PointedFails, WalkRow};
ghost use Rattle.grain_fault.specs.Problems.{Problem};
ghost use Rattle.grain_fault.specs.declared.places.Position.{Position};
ghost use Rattle.grain_fault.specs.declared.traces.Fault.{Fault};
ghost use Rattle.grain_means.specs.Comes.{CatchPoint, Comes, ComesToCatch, Stands};
ghost use Rattle.grain_means.specs.Core.{CoreMeans, IsCore};
ghost use Rattle.grain_means.specs.Ends.{Ends};
ghost use Rattle.grain_means.specs.Leavings.{names, Keeps, Cuts};
ghost use Rattle.grain_means.specs.Length.{run_length};
ghost use Rattle.grain_means.specs.Means.{Begin, Finish, Means, Over, slowly};
ghost use Rattle.grain_global.specs.declared.engines.Engine.{Engine};
ghost use Rattle.grain_global.specs.Engines.{with_callbacks};
ghost use Rattle.grain_program.specs.View.{View};
ghost use Rattle.grain_host.specs.Law.{Law, IsLawful};
ghost use Rattle.grain_means.specs.Contained.{AnswerNames, ConstantsName, Contained, RootsName};
ghost use Rattle.grain_program.specs.Typing.{IsProgram};
ghost use Rattle.grain_program.specs.declared.code.functions.Function.{Function};
ghost use Rattle.grain_program.specs.declared.code.chains.Step.{Step};
ghost use Rattle.grain_value.specs.declared.stores.Cell.{Cell};
ghost use Rattle.grain_value.specs.Paths.{at, put, Leads};
ghost use Rattle.grain_value.specs.Tree.{Tree};
ghost use Rattle.grain_value.specs.View.{tree};
ghost use Rattle.grain_value.specs.declared.values.Dynamic.{Dynamic};
ghost use Rattle.grain_value.specs.declared.values.FnPtr.{FnPtr};
ghost use Rattle.grain_value.specs.declared.values.Held.{Held};
ghost use Rattle.grain_value.specs.Looking.{cell_of};
ghost use Rattle.grain_value.specs.Operands.{read_write};
ghost use Rattle.grain_value.specs.Scopes.{set_held};
ghost use Rattle.grain_value.specs.declared.values.paths.PathStep.{PathStep};
ghost use Rattle.grain_means.specs.Places.{find, look, put as put_at, Part};
ghost use Rattle.grain_means.specs.Rules.InWorld.{walks};
ghost use Rattle.grain_means.specs.Readings.{ReadsAlong};
ghost use Rattle.grain_means.specs.Staying.{IsOver, ReceiverStays};
ghost use Rattle.grain_means.specs.Tasks.{WalkFailed, Invocation, Invoke, Own, Task, Walked, WalkEnded, play};
ghost use Rattle.grain_means.specs.Tasks.{Over as WalkOver};
ghost use Rattle.grain_means.specs.WalkEnds.{AllEnds, PlayEnds, WalkEnds};
ghost use Rattle.grain_means.specs.Walks.{Course, whole_walk};
ghost use Rattle.grain_means.specs.lemmas.Plays.{laid, played};
ghost use Rattle.grain_means.specs.lemmas.Spreading.{Rooted};

/// A run has at most one end.
pub fn one_end<S>()
    ensures { (m : Setup S) (act : Act S) (a b : Answer) (w v : World S) → Ends m act a w →
        Ends m act b v → (a ≡ b) × (w ≡ v) }
{}

/// What the slow evaluator computes is the end.
pub fn slow_end<S>()
    ensures { (m : Setup S) (n : ℕ) (act : Act S) (e : Over S) → slowly m n act ≡ Some e →
        Ends m act e.answer e.world }
{}

/// A call that begins without a trace counts exactly the instructions that it begins, leaves the
/// tokens that were out, the level and the entries of its scope, which a fault cuts to their number,
/// and ends with a cause. After a fault the trace's last entry has the slot of the step that is blamed.
pub fn counted<S>()
    ensures { (m : Setup S) (this : Option Place) (w v : World S) (a : Answer)
        (run : Ends m (called m this w) a v) → w.trace ≡ [] →
        (v.ran ≡ w.ran + run_length run) × (v.tokens ≡ w.tokens) × (v.level ≡ w.level) ×
        Keeps (length w.scope) (names w.scope) v.scope ×
        Cuts m (called m this w) w.level (length w.scope) a v ×
        Caused m (called m this w) w.level a v }
{}

/// Where the run of a valid program, which began without a trace, comes to a frame, an instruction
/// stands there, and its operands, its cursor, its handler and its entries of the pools are there.
pub fn provided<S>()
    ensures { (m : Setup S) (this : Option Place) (w v : World S) (f : Frame) →
        IsProgram m.program → w.trace ≡ [] → Comes m (InFrame f) v (called m this w) →
        Stands m.program f }
{}

/// Where something stands at the `this` of a call, something stands at the `this` of each frame to which
/// its run comes: the unit that is found where nothing stands is never read for a `this`.
pub fn bound_places<S>()
    ensures { (m : Setup S) (this : Option Place) (w v : World S) (f : Frame) (p : Place) →
        ((q : Place) → this ≡ Some q → (h : Held) × (find w.roots q ≡ Some h)) →
        Comes m (InFrame f) v (called m this w) → f.this ≡ Some p →
        (h : Held) × (find v.roots p ≡ Some h) }
{}

/// Where the run of a valid program, which began without a trace, comes to a handler that catches,
/// either the catch fails with a fault that no script may catch, or the catch block begins, with
/// exactly as many operands, cursors and entries of the scope as there were at the handler's push.
pub fn catches<S>()
    ensures { (m : Setup S) (this : Option Place) (w : World S) (at : CatchPoint S) →
        IsProgram m.program → w.trace ≡ [] → ComesToCatch m at (called m this w) → Catches m at }
{}

/// A call keeps to its store: where its scope, its roots, the contents of its cells, the constants and
/// the host name cells of the store only, none of which is lent and none of which holds a cell, so it is
/// when the call is over, also of its answer. No cell is gone. Where what it begins with is clean, so is
/// what it leaves: no cell stands directly inside an array or a map.
pub fn contained<S>()
    ensures { (m : Setup S) (this : Option Place) (w v : World S) (a : Answer) (clean : Bool)
        (n : ℕ) → IsLawful m.law → ConstantsName clean n m.program →
        Contained m.law clean n w.scope w.cells w.host → RootsName clean n w.roots →
        Ends m (called m this w) a v →
        (k : ℕ) × (n ≤ k) × Contained m.law clean k v.scope v.cells v.host
        × AnswerNames clean k a × RootsName clean k v.roots }
{}

/// A program has at most one meaning at a beginning: one end, after one number of instructions.
pub fn one_meaning<S>()
    ensures { (law : Law S) (program : View) (engine : Engine) (b : Begin S) (e f : Finish S)
        (n k : ℕ) →
        Means law program engine b e n → Means law program engine b f k → (e ≡ f) × (n ≡ k) }
{}

/// Under an engine with callbacks, an end by the rules of the core alone is an end by all rules (`means`).
/// And where the program is a valid one of the core, each end by all rules is one by the rules of the
/// core alone (`core`).
pub fn core_agrees<S>()
    ensures means { (law : Law S) (program : View) (engine : Engine) (b : Begin S) (e : Finish S) →
        CoreMeans law program engine b e →
        (n : ℕ) × Means law program (with_callbacks true engine) b e n }
    ensures core { (law : Law S) (program : View) (engine : Engine) (b : Begin S) (e : Finish S) →
        IsProgram program → IsCore program → (n : ℕ) →
        Means law program (with_callbacks true engine) b e n → CoreMeans law program engine b e }
{}

/// In a run in which memory is never out, each mark is passed: what stands after it is done, and the mark is
/// counted. So a reader of the rules of such a run may leave the marks out.
pub fn marks_pass<S>()
    ensures { (m : Setup S) (out : World S → Act S) (w : World S) (go : World S → Act S) →
        m.stop ≡ None → marked_or m out w go ≡ go (record w { passed = w.passed + 1 }) }
{}

/// Each end of a chain's walk leaves one root, that at which it began; a chain that assigns ends with
/// unit; and a fault blames one of the chain's steps. What holds of every end of a task holds where a
/// walk by itself ends, and of every end that it still can come to where it asks for something or calls
/// a function.
pub fn walk_ends()
    ensures all { (c : Course) (steps : List Step) → 0 < length steps →
        AllEnds (WalkEnds c steps) 1 (whole_walk c steps) }
    ensures by_play { (c : Course) (steps : List Step) (stop : Option ℕ) (cells : List Cell)
        (t : Task) (s : Own) → AllEnds (WalkEnds c steps) (length s.roots) t →
        PlayEnds (WalkEnds c steps) (play stop cells t s) }
{}

/// Where a walk by itself comes to, the walk in the world comes to, with the first root at its place
/// and the others after all roots of the world.
pub fn both_readings<S>()
    ensures { (m : Setup S) (k : ℕ) (f : Frame) (p : Place) (g : Held)
        (missed : Option (List Fault)) (done : Walked → World S → Act S) (w : World S) →
        find w.roots p ≡ Some g → (t : Task) (s : Own) → Rooted g.read_only s.roots →
        walks m k f p (length w.roots) missed t done (laid w p s)
        ≡ played m k f p missed done w (play m.stop w.cells t s) }
{}

/// A chain that assigns nothing, and whose steps lead along elements of arrays and keys of maps alone,
/// gives what stands at the end of their path, leaves its root as it was, asks for nothing, and calls
/// nothing.
pub fn reads_along()
    ensures { (c : Course) (cells : List Cell) (h : Held) (steps : List Step)
        (path : List PathStep) (u : Dynamic) → c.assigns ≡ None →
        ReadsAlong cells c steps h.value path u →
        (j : ℕ) × (play None cells (whole_walk c steps) (record { roots = h ∷ []; passed = 0 })
        ≡ WalkOver (WalkEnded u false) (record { roots = h ∷ []; passed = j }))
        × (at path (tree h.value) ≡ Ok (tree u)) }
{}

/// A reason (`WalkRow`) for which a chain's walk ends in a fault and blames a step is one of four: it is
/// among those of the fault's kind (`OwnRow`); or a native that the walk called ended with the fault, and
/// with it the walk ends; or a native ended with the fault because there was no such property, the walk
/// called an indexer in its place, and there was none; or a pointer that is called names no function, and
/// the native of its name ended with the fault. A fault that left the body of a function that the walk
/// called has no reason among these: `Row` has it if a script may catch it, and else `LeftCall`.
pub fn walk_rows<S>()
    ensures { (m : Setup S) (c : ChainWalk S) (n : ℕ) (x : Problem) → WalkRow m c n x →
        OwnRow m c n x ⊎ (NativeFails m c n x ⊎ (InsteadFails m c n x ⊎ PointedFails m c n x)) }
{}

/// What is written at a path is there; a second write at the path hides the first; what stands beside the
/// path is as it was; and a path that goes further leads where its second part leads from where its first
/// part leads.
pub fn written_paths()
    ensures there { (p : List PathStep) (t new : Tree) → Leads p t → at p (put p new t) ≡ Ok new }
    ensures twice { (p : List PathStep) (t a b : Tree) → Leads p t →
        put p b (put p a t) ≡ put p b t }
    ensures beside { (p q : List PathStep) (t new : Tree) → Part p q →
        at q (put p new t) ≡ at q t }
    ensures further { (p q : List PathStep) (t c new : Tree) → at p t ≡ Ok c →
        (at (p ++ q) t ≡ at q c) × (put (p ++ q) new t ≡ put p (put q new c) t) }
{}

/// What a function wrote through its `this` stays, also where it failed. The walk that called it goes on
/// from the roots and cells as the body left them, or as they were if it was not entered (`writable`);
/// of what can only be read the body had a copy, and no root has changed (`constant`). After a fault of
/// the call the walk only drops roots of its own, and ends with that fault, which blames the step of the
/// call (`falls`). So what its first root held when the fault was heard goes back to the entry or the
/// cell that held it (`survives`); a walk from a `this` has no root of its own to give back.
pub fn stays_written<S>()
    ensures writable { (m : Setup S) (q : Position) (g : Function) (args : List Held)
        (heard : Answer → World S → Act S) (p : Place) (w v : World S) (a : Answer) →
        (look w.roots p).read_only ≡ false →
        Ends m (function_called m q g args heard (Some p) w) a v →
        (b : Answer) × (u : World S) × IsOver m q g args (Some p) w b u
        × (u.scope ≡ w.scope) × (u.level ≡ w.level) × Ends m (heard b u) a v }
    ensures constant { (m : Setup S) (q : Position) (g : Function) (args : List Held)
        (heard : Answer → World S → Act S) (p : Place) (w v : World S) (a : Answer) →
        (look w.roots p).read_only ≡ true →
        Ends m (function_called m q g args heard (Some p) w) a v →
        (b : Answer) × (u : World S) × (u.roots ≡ w.roots) × Ends m (heard b u) a v }
    ensures falls { (m : Setup S) (c : ChainWalk S) (i : Invocation) (go : Answer → Task)
        (w : World S) (x : Problem) → ComesTo m c (Invoke i go) w → Falls i.step x (go (Failed x)) }
    ensures survives { (m : Setup S) (k next n : ℕ) (f : Frame) (back : Held → World S → World S)
        (w u : World S) (x : Problem) (missed : Option (List Fault)) (t : Task) → Falls n x t →
        walks m k f (new_root w.roots) (length w.roots + 1) missed t (λ o v. chain_over m k next f o
        (back (look v.roots (new_root w.roots)) (record v { roots = take (length w.roots) v.roots })))
        u ≡ chain_over m k next f (WalkFailed n x)
        (back (look u.roots (new_root w.roots)) (record u { roots = take (length w.roots) u.roots })) }
{}

/// What a function wrote to the receiver of its call stays, also where it failed. The call goes on from
/// the receiver's root as the body left it, or as it was if the body was not entered, and from the cells
/// as the body left them; the roots before it are as they were (`stays`). Whatever the function's answer,
/// the receiver then replaces what stands at the frame's `this` (`to_this`), or what is held in the slot's
/// entry (`to_entry`), before a value is pushed or a handler hears of a fault. One that is a cell, or that
/// can only be read, goes nowhere (`nowhere`).
pub fn receiver_stays<S>()
    ensures stays { (m : Setup S) (d : Destination) (r : FnPtr) (values : List Dynamic) (h : Held)
        (next : ℕ) (f : Frame) (g : Function) (w v : World S) (a : Answer) →
        function_by_name m.program r.name (length r.curry + length values) ≡ Some g →
        is_stop m.stop w.passed ≡ false → is_read_only w h ≡ false →
        Ends m (receiver_called m d r values h next f w) a v →
        ReceiverStays m d g (curried_in r ++ map read_write values) h next f w v a }
    ensures to_this { (m : Setup S) (next : ℕ) (f : Frame) (h : Held) (a : Answer) (w : World S)
        (p : Place) → f.this ≡ Some p → cell_of h.value ≡ None → h.read_only ≡ false →
        receiver_over m ToThis next f h a w
        ≡ call_over m next f a (record w { roots = put_at w.roots p h.value }) }
    ensures to_entry { (m : Setup S) (next : ℕ) (f : Frame) (h : Held) (a : Answer) (w : World S)
        (slot : ℕ) (before : Held) → held_at w.scope (f.base + slot) ≡ Some before →
        cell_of h.value ≡ None → h.read_only ≡ false →
        receiver_over m (ToSlot slot) next f h a w
        ≡ call_over m next f a (record w { scope = set_held w.scope (f.base + slot) h }) }
    ensures nowhere { (m : Setup S) (d : Destination) (next : ℕ) (f : Frame) (h : Held) (a : Answer)
        (w : World S) → (is_some (cell_of h.value) || h.read_only) ≡ true →
        receiver_over m d next f h a w ≡ call_over m next f a w }
{}

/// A frame writes nothing that stands at a place but what stands at its own `this`. So one without a
/// `this` leaves all roots as they were (`without`); one with a `this` leaves all other roots, and as
/// many (`others`), and all that stands beside the place in its root (`inside`).
pub fn leaves_places<S>()
    ensures without { (m : Setup S) (f : Frame) (w v : World S) (a : Answer) → f.this ≡ None →
        Ends m (Go (InFrame f) w) a v → v.roots ≡ w.roots }
    ensures others { (m : Setup S) (f : Frame) (p : Place) (w v : World S) (a : Answer) (j : ℕ) →
        f.this ≡ Some p → (j ≡ p.root → ⊥) → Ends m (Go (InFrame f) w) a v →
        (length v.roots ≡ length w.roots) × (slice_get v.roots j ≡ slice_get w.roots j) }
    ensures inside { (m : Setup S) (f : Frame) (p : Place) (w v : World S) (a : Answer) (h : Held) →
        f.this ≡ Some p → find w.roots p ≡ Some h → Ends m (Go (InFrame f) w) a v →
        (u : Dynamic) × (v.roots ≡ put_at w.roots p u)
        × (find v.roots p ≡ Some (record h { value = u })) }
{}
