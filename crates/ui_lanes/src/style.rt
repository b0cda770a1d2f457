//! The look of a picture of a halt.

use std::alloc::AllocError;
use ui_text::Notes;
use ui_timeline::Theme;

// Each class has the prefix, so that a page may have several drawings.
static STYLE: &str =
    "    .rdbg-lanes { --ground: #ffffff; --ink: #1b1b1b; --weak: #595959; --line: #8a8a8a; --bad: #b3261e; --tint: #fbe3e0; --hatch: #d98078; --false: #f3f3f3; --message: #1f56a8; --flight: #8a4b00; --panel: #f6f7f9; }
    .rdbg-lanes text { font: 11px ui-monospace, \"DejaVu Sans Mono\", monospace; fill: var(--ink); }
    .rdbg-lanes .rdbg-ground { fill: var(--ground); }
    .rdbg-lanes .rdbg-panel { fill: var(--panel); }
    .rdbg-lanes .rdbg-heading { font-size: 15px; font-weight: bold; fill: var(--bad); }
    .rdbg-lanes .rdbg-sentence { font: 12.5px system-ui, \"DejaVu Sans\", sans-serif; }
    .rdbg-lanes .rdbg-key { font: 11px system-ui, \"DejaVu Sans\", sans-serif; fill: var(--weak); }
    .rdbg-lanes .rdbg-name { font-size: 13px; fill: var(--weak); }
    .rdbg-lanes .rdbg-violator { fill: var(--ink); font-weight: bold; }
    .rdbg-lanes .rdbg-line { stroke: var(--line); stroke-width: 1.2; }
    .rdbg-lanes .rdbg-false { fill: var(--false); stroke: var(--line); stroke-dasharray: 3 3; }
    .rdbg-lanes .rdbg-holds { stroke: var(--bad); stroke-width: 1.6; }
    .rdbg-lanes .rdbg-tint { fill: var(--tint); }
    .rdbg-lanes .rdbg-hatch { stroke: var(--hatch); stroke-width: 1.3; }
    .rdbg-lanes .rdbg-held { font-size: 12px; font-weight: bold; stroke: var(--tint); stroke-width: 4px; paint-order: stroke; }
    .rdbg-lanes .rdbg-unmet { fill: var(--weak); stroke: var(--false); stroke-width: 3.5px; paint-order: stroke; }
    .rdbg-lanes .rdbg-event { fill: var(--ink); }
    .rdbg-lanes .rdbg-number { font-size: 10px; font-weight: bold; fill: var(--ground); text-anchor: middle; }
    .rdbg-lanes .rdbg-large { fill: var(--bad); }
    .rdbg-lanes .rdbg-ring { fill: var(--ground); stroke: var(--bad); stroke-width: 2; }
    .rdbg-lanes .rdbg-number.rdbg-first { font-size: 12px; }
    .rdbg-lanes .rdbg-label, .rdbg-lanes .rdbg-change { stroke: var(--ground); stroke-width: 3.5px; paint-order: stroke; stroke-linejoin: round; }
    .rdbg-lanes .rdbg-change, .rdbg-lanes .rdbg-state { fill: var(--weak); }
    .rdbg-lanes .rdbg-message { stroke: var(--message); stroke-width: 1.4; fill: none; marker-end: url(#rdbg-lanes-head); }
    .rdbg-lanes .rdbg-head { fill: var(--message); }
    .rdbg-lanes .rdbg-message-value { fill: var(--message); text-anchor: middle; font-weight: bold; stroke: var(--ground); stroke-width: 4px; paint-order: stroke; }
    .rdbg-lanes .rdbg-flight { stroke: var(--flight); stroke-width: 1.6; stroke-dasharray: 6 4; fill: none; marker-end: url(#rdbg-lanes-open); }
    .rdbg-lanes .rdbg-open { stroke: var(--flight); stroke-width: 1.8; fill: none; }
    .rdbg-lanes .rdbg-flown { fill: var(--flight); text-anchor: middle; font-weight: bold; stroke: var(--ground); stroke-width: 4px; paint-order: stroke; }
    .rdbg-lanes .rdbg-cut { stroke: var(--bad); stroke-width: 4; }
    .rdbg-lanes .rdbg-earliest { fill: var(--bad); font-weight: bold; font-size: 12px; }
    .rdbg-lanes .rdbg-chip { fill: var(--ground); stroke: var(--bad); stroke-width: 2; }
    .rdbg-lanes .rdbg-value { font-size: 13px; font-weight: bold; fill: var(--bad); }";

// The colours on a dark ground.
static DARK: &str =
    ".rdbg-lanes { --ground: #15171b; --ink: #ececec; --weak: #b3b8c0; --line: #7f8690; --bad: #ff9c92; --tint: #4a211e; --hatch: #a5473e; --false: #23262b; --message: #8db8ff; --flight: #f2b45c; --panel: #1d2025; }";

/// Says the style in these colours.
pub(crate) fn say_style(notes: &mut Notes, theme: Theme) -> Result<(), AllocError> {
    theme.say_style(notes, STYLE, DARK)
}

/// Says the heads of arrows.
pub(crate) fn say_markers(notes: &mut Notes) -> Result<(), AllocError> {
    notes.say(
        "  <marker id=\"rdbg-lanes-head\" viewBox=\"0 0 9 8\" refX=\"8\" refY=\"4\" markerWidth=\"9\" markerHeight=\"8\" markerUnits=\"userSpaceOnUse\" orient=\"auto\"><path class=\"rdbg-head\" d=\"M0 0L9 4L0 8z\"/></marker>",
    )?;
    notes.say(
        "  <marker id=\"rdbg-lanes-open\" viewBox=\"0 0 10 10\" refX=\"9\" refY=\"5\" markerWidth=\"10\" markerHeight=\"10\" markerUnits=\"userSpaceOnUse\" orient=\"auto\"><path class=\"rdbg-open\" d=\"M1 1L9 5L1 9\"/></marker>",
    )
}
