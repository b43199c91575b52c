// Scripts of calls, compared with what an independent program worked out for them.
#![tactic(auto)]

ghost use Rattle.std.specs.Prelude.{◌≡◌};
ghost use Rattle.runs.specs.Every.{EveryScriptAgrees, scripts};
ghost use Rattle.runs.specs.Scripts.{call_count};

// Every script agrees with the definitions, call by call and at its end; there are as many calls as this answers.
pub fn scripts_agree() -> usize
    ensures agree { EveryScriptAgrees }
    ensures calls { result ≡ call_count scripts }
{
    373
}
