//! Consequences of the clauses of a session. Each function does nothing: its contract is the law.
ghost use Rattle.std.specs.Prelude.{◌≡◌, ◌+◌, ◌≤◌, ℕ, length};
ghost use Rattle.kp_debug.specs.Sessions.{Debugged, forward, back};

/// As many cycles back as forward restore all that a session shows, unless the way forward was cut off by the end of the run.
pub fn steps_back_restore()
    ensures { (d : Debugged) (n : ℕ) → d.cycle + n ≤ length d.inputs → back n (forward n d) ≡ d }
{}
