//! `tests/run page_sources --update` writes this file from `page/page.html` and what that includes.

pub(super) static TEXT: &str = r#"<!DOCTYPE html>
<html lang=en>
<head>
<meta charset=utf-8>
<meta name=viewport content="width=device-width, initial-scale=1">
<meta http-equiv=Content-Security-Policy content="default-src 'none'; style-src 'unsafe-inline'; script-src 'unsafe-inline'; img-src data:">
<link rel=icon href="data:,">
<title>A session of rdbg</title>
<noscript><style>
body { display: block !important; height: auto !important; padding: 8px 16px; }
header, #lines, #right, .splitter { display: none !important; }
pre { overflow: auto; }
</style></noscript>
<style>
:root {
  color-scheme: light dark;
  --ground: rgb(255,255,255); --area: rgb(243,244,246); --edge: rgb(200,204,210); --text: rgb(27,31,36); --weak: rgb(89,96,106);
  --event: rgb(37,84,160); --on-event: rgb(255,255,255); --arrow: rgb(92,101,114); --rail: rgb(128,135,147);
  --chosen: rgb(255,236,179); --focus: rgb(190,80,0);
  --bad: rgb(176,32,32); --c0: rgb(192,40,60); --c1: rgb(160,85,0); --c2: rgb(135,60,190); --c3: rgb(0,115,95); --c4: rgb(85,110,0);
}
@media (prefers-color-scheme: dark) {
  :root {
    --ground: rgb(24,26,31); --area: rgb(35,38,45); --edge: rgb(72,78,90); --text: rgb(228,231,236); --weak: rgb(160,168,180);
    --event: rgb(120,170,245); --on-event: rgb(16,20,28); --arrow: rgb(150,160,175); --rail: rgb(112,120,135);
    --chosen: rgb(82,68,22); --focus: rgb(255,190,90);
    --bad: rgb(255,165,160); --c0: rgb(255,120,135); --c1: rgb(245,175,90); --c2: rgb(200,155,255); --c3: rgb(80,210,175); --c4: rgb(185,210,85);
  }
}
* { box-sizing: border-box; }
body {
  margin: 0; height: 100vh; height: 100dvh; display: grid;
  grid-template: auto minmax(0, 1fr) / var(--beside, clamp(15rem, 25vw, 26rem)) 7px minmax(0, 1fr);
  background: var(--ground); color: var(--text); font: 14px/1.4 system-ui, sans-serif;
}
:focus-visible { outline: 3px solid var(--focus); outline-offset: -2px; }
g:focus-visible { outline: none; }
code, .row, text, #program, #results, #details td { font-family: ui-monospace, "DejaVu Sans Mono", Menlo, Consolas, monospace; font-size: 12px; }
header {
  grid-column: 1 / 4; min-width: 0; display: flex; flex-wrap: wrap; gap: 4px 8px; align-items: center; padding: 6px 10px; background: var(--area);
}
header, #points, #details, #program, #overview { border: 0 solid var(--edge); border-bottom-width: 1px; }
header h1 { font-size: 14px; margin: 0 6px 0 0; }
#slider { flex: 1; min-width: 8rem; accent-color: var(--event); }
#said { flex-basis: 100%; overflow-wrap: anywhere; max-height: 4.2em; overflow: auto; }
button {
  font: inherit; color: inherit; background: var(--ground); border: 1px solid var(--rail); border-radius: 4px; padding: 2px 9px; cursor: pointer;
}
button:hover, summary:hover { border-color: var(--text); }
button[aria-pressed=true], #shown[open] summary { background: var(--chosen); border-color: var(--text); }
#shown, #finder { position: relative; }
#shown summary { border: 1px solid var(--rail); border-radius: 4px; padding: 2px 9px; background: var(--ground); cursor: pointer; }
#choices, #results {
  position: absolute; z-index: 3; right: 0; top: 100%; overflow: auto; max-height: 70vh; background: var(--ground); border: 1px solid var(--weak);
}
#choices { display: flex; gap: 4px; padding: 6px; }
#choices fieldset { border: 0; margin: 0; padding: 0 8px; }
#choices legend { font-weight: 600; padding: 0; }
#choices label { display: block; white-space: nowrap; }
#search {
  font: inherit; color: inherit; background: var(--ground); border: 1px solid var(--rail); border-radius: 4px; padding: 2px 6px; width: 9rem;
}
#search::placeholder { color: var(--weak); opacity: 1; }
#results { display: none; width: min(40rem, 94vw); }
#results.open { display: block; }
#results div { padding: 3px 8px; cursor: pointer; overflow-wrap: anywhere; }
#results [aria-selected=true] { background: var(--chosen); outline: 1px solid var(--focus); outline-offset: -1px; }
#lines, #drawing { overflow: auto; position: relative; }
.splitter { position: relative; z-index: 1; flex: none; background: var(--area); border: 0 solid var(--edge); touch-action: none; }
#beside { border-width: 0 1px; cursor: col-resize; }
#above { border-width: 1px 0; height: 7px; cursor: row-resize; }
.splitter:hover { background: var(--edge); }
.window { position: sticky; top: 0; left: 0; overflow: hidden; display: block; }
.row {
  position: absolute; left: 0; right: 0; height: 42px; padding: 2px 8px 2px 5.4em; cursor: pointer; white-space: pre;
  border-left: 4px solid transparent;
}
.row div { overflow: hidden; text-overflow: ellipsis; }
.row .number { position: absolute; left: 0; width: 4.6em; text-align: right; color: var(--weak); }
.row .reply { color: var(--weak); }
.row:hover { background: var(--area); }
.row.chosen { background: var(--chosen); border-color: var(--focus); }
.row.chosen .reply, .row.chosen .number { color: inherit; }
.row .refused, .row.chosen .refused { color: var(--bad); }
.row .halts, .row.chosen .halts { color: inherit; font-weight: bold; }
#right { display: flex; flex-direction: column; min-height: 0; min-width: 0; }
#points { display: flex; flex-wrap: wrap; gap: 4px 6px; padding: 5px 8px; max-height: 5.6em; overflow: auto; flex: none; }
#points:empty { display: none; }
#points button { border-left: 5px solid currentColor; padding: 1px 8px; }
#points [aria-pressed=true] { background: var(--ground); box-shadow: inset 0 0 0 2px currentColor; }
#drawing { flex: 1; min-height: 6rem; cursor: grab; user-select: none; }
#drawing.dragged { cursor: grabbing; }
#overview { overflow: hidden; border-width: 1px 0 0; flex: none; cursor: pointer; touch-action: none; }
#overview.unneeded { display: none; }
#overview svg { display: block; }
#overview path { stroke: var(--event); stroke-width: 3; }
#overview rect { fill: var(--chosen); fill-opacity: .35; stroke: var(--focus); stroke-width: 2; }
#below { display: flex; flex: none; height: var(--above, 33vh); }
#program {
  display: none; flex: 2; min-width: 0; overflow: auto; padding: 6px 12px; border-width: 0 0 0 1px; white-space: pre-wrap; overflow-wrap: anywhere;
  tab-size: 4; counter-reset: line;
}
.with-program #program { display: block; }
#program div { padding-left: 3.4em; position: relative; }
#program div::before {
  counter-increment: line; content: counter(line); position: absolute; left: 0; width: 2.6em; text-align: right; color: var(--weak);
}
mark { background: var(--chosen); color: inherit; outline: 1px solid var(--focus); }
#details { border-width: 0; flex: 3; min-width: 0; overflow: auto; padding: 6px 12px; }
#details h2 { font-size: 14px; margin: 0 0 4px; }
#details p { margin: 0 0 4px; overflow-wrap: anywhere; }
#details .explained { white-space: pre-wrap; }
#details button { padding: 0 6px; }
#details .parts { display: flex; flex-wrap: wrap; align-items: flex-start; gap: 4px 28px; }
#details table { border-collapse: collapse; }
#details th { text-align: left; font-weight: normal; color: var(--weak); vertical-align: top; }
#details th, #details td { padding: 0 14px 0 0; overflow-wrap: anywhere; }
#details caption, #details .caption { text-align: left; font-weight: 600; margin: 0; }
#details caption { white-space: nowrap; }
#details thead th { font-size: 12px; }
#details .state td { vertical-align: top; }
#details .state th { min-width: 6em; }
#details .state td:nth-child(3) { min-width: 8em; }
#details .whole { white-space: nowrap; }
#details .state td:nth-child(2), #details .state td:nth-child(4) { white-space: nowrap; }
#details .state .part th { font-weight: 600; color: inherit; }
#details details { margin: 4px 0; }
#details summary { cursor: pointer; }
#details .counts { display: flex; flex-wrap: wrap; max-width: 13rem; }
#details .counts caption { flex-basis: 100%; }
#details ol { margin: 0; padding-left: 2.4em; }
#details .search { flex: 1; min-width: 18rem; }
text { fill: var(--text); }
g { cursor: inherit; }
.line line { stroke: var(--rail); stroke-width: 1.5; }
.names .chosen text { font-weight: bold; }
.names rect { fill: var(--ground); }
.names g { cursor: pointer; }
.event, .cut { cursor: pointer; }
.event ellipse { fill: var(--event); stroke: var(--event); stroke-width: 2; }
.event .number { fill: var(--on-event); text-anchor: middle; font-size: 10px; }
.event .sets, .arrow text { font-size: 11px; paint-order: stroke; stroke: var(--ground); stroke-width: 4px; stroke-linejoin: round; }
.event .sets { fill: var(--weak); text-anchor: start; }
.event.beyond ellipse:not(.ring) { fill: var(--ground); }
.event.later ellipse:not(.ring) { fill: var(--ground); stroke: var(--weak); stroke-dasharray: 3 2; }
.event.beyond .number { fill: var(--text); }
.event.later .number { fill: var(--weak); }
.event.holding ellipse:not(.ring) { fill: currentColor; stroke: currentColor; }
.event.holding .sets { fill: currentColor; font-weight: bold; }
.event .ring { fill: none; stroke: none; }
.event.holding .ring { stroke: currentColor; stroke-width: 2; }
.event.latest .ring { stroke: var(--focus); stroke-dasharray: none; }
.event.past ellipse:not(.ring) { stroke-width: 4; }
.event.apart:not(.holding) ellipse:not(.ring) { fill: var(--ground); stroke: var(--rail); stroke-dasharray: 1 3; }
.event.apart:not(.holding) .number { fill: var(--text); }
.arrow.past line, .arrow.past path { stroke-width: 2.5; }
.arrow.apart line, .arrow.apart path { stroke: var(--rail); stroke-width: 1; }
.event.chosen .ring { stroke: var(--text); stroke-width: 3; stroke-dasharray: none; }
.event:focus-visible .ring { stroke: var(--focus); stroke-width: 5; stroke-dasharray: none; }
.names :focus-visible rect { stroke: var(--focus); stroke-width: 5; }
.arrow line, .arrow path { stroke: var(--arrow); stroke-width: 1.5; fill: var(--arrow); }
.arrow text { text-anchor: middle; }
.arrow { cursor: pointer; }
.arrow.chosen line, .arrow.chosen path { stroke: var(--text); stroke-width: 4; }
.arrow.chosen text { font-weight: bold; }
.arrow.flying line { stroke-dasharray: 4 3; }
.arrow.flying path { fill: none; }
.arrow.crossing line, .arrow.crossing path { stroke: currentColor; stroke-width: 2.5; }
.arrow.crossing:not(.flying) path { fill: currentColor; }
.cut path { fill: none; stroke: currentColor; stroke-width: 1.5; stroke-linejoin: round; }
.cut.dash0 path { stroke-dasharray: 8 4; }
.cut.dash1 path { stroke-dasharray: 2 3; }
.cut.dash2 path { stroke-dasharray: 12 3 2 3; }
.cut.dash3 path { stroke-dasharray: 4 4; }
.cut.dash4 path { stroke-dasharray: 12 3 2 3 2 3; }
.cut .tint, .cut.chosen .tint, .cut.halting .tint { fill: currentColor; fill-opacity: .06; stroke: none; pointer-events: none; }
.cut text { fill: currentColor; paint-order: stroke; stroke: var(--ground); stroke-width: 4px; }
.cut.chosen path { stroke-width: 3; }
.cut.halting path { stroke-width: 3.5; }
.cut.halting text, #points .halting { font-weight: bold; }
.c0 { color: var(--c0); } .c1 { color: var(--c1); } .c2 { color: var(--c2); } .c3 { color: var(--c3); } .c4 { color: var(--c4); }
.event, .event > *, .arrow { transition: opacity .25s; }
.new, .gone { opacity: 0; }
@media (prefers-reduced-motion: reduce) { .event, .event > *, .arrow { transition: none; } }

.outside { position: fixed; left: -99rem; }
@media (max-width: 700px) {
  body { grid-template: auto minmax(0, 1fr) minmax(4rem, 12vh) / minmax(0, 1fr); }
  #beside { display: none; }
  #lines { order: 1; }
  header { grid-column: 1; padding: 4px 6px; gap: 4px; }
  header h1 { display: none; }
  header button, #shown summary { padding: 2px 7px; }
  #slider { min-width: 6rem; }
  #search { width: 6.5rem; }
  #said { max-height: 2.8em; }
  #lines { border-top: 1px solid var(--edge); }
  #below { height: var(--above, 38vh); }
  #below.with-program { flex-direction: column; height: 46vh; }
  #program { border-width: 1px 0 0; }
  #choices { position: fixed; left: 6px; right: 6px; top: auto; flex-wrap: wrap; }
  #results { position: fixed; left: 6px; right: 6px; top: auto; width: auto; max-height: 50vh; }
  #details table { display: block; overflow-x: auto; }
  #details .state thead { display: none; }
  #details .state tr { display: flex; flex-wrap: wrap; padding-bottom: 4px; }
}
@media (max-height: 480px) {
  body { display: flex; flex-direction: column; height: auto; }
  .splitter { display: none; }
  #lines { order: 1; height: 5.4rem; }
  #right { display: block; }
  #drawing { height: 75vh; height: 75dvh; }
  #below, #below.with-program { display: block; height: auto; border-top: 1px solid var(--edge); }
  #details, #program { overflow: visible; }
  #details table { display: block; overflow-x: auto; }
}
@media (forced-colors: active) {
  .line line, .event ellipse, .arrow line, .arrow path, .cut path { stroke: CanvasText; }
  .event ellipse { fill: CanvasText; }
  .event .number { fill: Canvas; }
  .event.later ellipse, .event.beyond ellipse, .names rect { fill: Canvas; }
  .event.later .number, .event.beyond .number, text { fill: CanvasText; }
  .event .number { stroke: none; }
  .event .sets, .event.holding .sets, .cut text { fill: CanvasText; }
  .event .sets, .arrow text, .cut text { stroke: Canvas; }
  .event.holding .number { fill: Canvas; }
  .event .ring { fill: none; stroke: none; }
  .event.latest .ring, .event.chosen .ring, .event:focus-visible .ring, .names :focus-visible rect { stroke: Highlight; }
  .event.holding ellipse:not(.ring) { fill: CanvasText; }
  .event.holding ellipse:not(.ring), .arrow.crossing line, .arrow.crossing path { stroke: Highlight; stroke-width: 4; }
  .cut.halting path, .cut.chosen path { stroke: Highlight; }
  .row.chosen, mark, button[aria-pressed=true], #results [aria-selected=true] {
    forced-color-adjust: none; background: Highlight; color: HighlightText;
  }
  .row.chosen .reply, .row.chosen .number, .row.chosen .refused { color: HighlightText; }
  #overview path { stroke: CanvasText; }
  #overview rect { fill: none; stroke: Highlight; }
}
@media print {
  body { display: block; height: auto; }
  header > :not(#said), #lines, #overview, .splitter, #details .help, #details details:not([open]) { display: none; }
  header, #points { background: none; padding: 4px 0; }
  #said, #points { max-height: none; }
  #right { display: block; }
  #drawing, #drawing > div { overflow: visible; width: auto !important; height: auto !important; }
  #drawing svg { position: static; width: 100%; height: auto; max-height: 60vh; }
  #below, #below.with-program { display: block; height: auto; border: 0; }
  #details, #program { overflow: visible; padding: 6px 0; }
  #program { break-before: page; }
  * { print-color-adjust: exact; }
}
</style>
</head>
<body>
<header>
<h1>rdbg</h1>
<button id=first title="To the start (Home)" aria-label="To the start">|&lt;</button>
<button id=before title="One line back (left or up)" aria-label="One line back">&lt;</button>
<button id=play title="Play what changes something (space)">play</button>
<button id=next title="One line forward (right or down)" aria-label="One line forward">&gt;</button>
<button id=last title="To the end (End)" aria-label="To the end">&gt;|</button>
<input id=slider type=range min=0 list=halts title="The marks are halts (h, H)" aria-label="Line of the session">
<datalist id=halts></datalist>
<button id=narrower title="Narrower drawing (-)" aria-label="Narrower drawing">-</button>
<button id=wider title="Wider drawing (+)" aria-label="Wider drawing">+</button>
<button id=fit title="Fit the drawing to the window (f)" aria-pressed=false>fit</button>
<button id=code title="The text of the program (p)" aria-pressed=false>program</button>
<details id=shown><summary id=choose>show</summary><div id=choices></div></details>
<button id=text title="Copy what is said of this state as text">copy text</button>
<button id=copy title="Copy the address of what is shown">copy link</button>
<button id=save title="Save the whole drawing as an SVG file">save SVG</button>
<div id=finder>
<input id=search type=search role=combobox aria-controls=results aria-expanded=false aria-autocomplete=list
  placeholder="search ( / )" aria-label="Search lines, events and values">
<div id=results role=listbox aria-label="Found"></div>
</div>
<div id=said role=status aria-live=polite></div>
</header>
<div id=lines role=listbox tabindex=0 aria-label="Lines of the session with their replies"><div><div class=window></div></div></div>
<div id=beside class=splitter role=separator tabindex=0 aria-orientation=vertical aria-controls=lines aria-label="Width of the list"></div>
<div id=right>
<div id=points role=group aria-label="Breakpoints"></div>
<div id=drawing tabindex=-1><div><svg class=window role=group></svg></div></div>
<div id=overview aria-hidden=true><svg></svg></div>
<div id=above class=splitter role=separator tabindex=0 aria-orientation=horizontal aria-controls=below aria-label="Height of the details"></div>
<div id=below>
<section id=details aria-label="Details" tabindex=0></section>
<section id=program aria-label="Program" tabindex=0></section>
</div>
</div>
<noscript>
<h1>A session of rdbg</h1>
<p>Scripts are off, so one state is shown: where the session halts first, or else its end. The events of a process are in its column, the
earliest at the top.</p>
<pre>
"#;
