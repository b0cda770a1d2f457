//! What several test crates share: the programs that their sessions run, and what a failure shows.
#![tactic(auto)]

/// What a test shows if an allocation fails.
pub const MEMORY: &str = "ample memory";

/// A process that sends, and one that receives.
pub const TWO: &str = "process a {
  var x = 0;
  when (x < 3) : send b (x + 1), x := (x + 1);
}
process b {
  var y = 0;
  var n = 0;
  when true : recv a y, n := (n + 1);
  when (n > 0) : n := (n - 1);
}
";

/// The two processes of `TWO`, and one that counts by itself.
pub const THREE: &str = "process a { var x = 0; when (x < 3) : send b (x + 1), x := (x + 1); }
process b { var y = 0; var n = 0; when true : recv a y, n := (n + 1); when (n > 0) : n := (n - 1); }
process c { var z = 0; when true : z := (z + 1); }
";

/// A process that sends one of two numbers, and one that receives it.
pub const PAIR: &str =
    "process s { var u = 0; when true : send r 5, u := 1; when true : send r 7, u := 2; }
process r { var v = 0; when true : recv s v; }
";

/// A process that sends, and one that receives, each of which counts the messages.
pub const COUNTS: &str = "process a {
  var x = 0;
  when (sent(b) < 2) : send b (sent(b) + 10);
}
process b {
  var y = 0;
  var z = 0;
  when (got(a) = 0) : recv a y;
  when (got(a) = 1) : recv a y, z := (y + got(a));
}
";
