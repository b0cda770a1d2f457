//! `tests/run page_sources --update` writes this file from `page/page.html` and what that includes.

pub(super) static TEXT: &str = r#"</script>
<script>

'use strict';
(() => {
const find = id => document.getElementById(id);
// The data are a line of JSON for the program, one for what a line of the session did, if it did something, and one for each line with its
// reply and an explanation, if it has one. In a text, `<` and each byte that is not ASCII are characters from 256 on.
let session, values;
try {
  const data = find('session').textContent.trim().replace(/[\u0100-\u01ff]/g, sign => String.fromCharCode(sign.charCodeAt(0) - 256));
  [session, ...values] = JSON.parse('[' + data.replaceAll('\n', ',') + ']');
} catch (fault) {
  find('said').textContent = 'The data of the session are incomplete: ' + fault.message;
  return;
}

// Texts. They have each byte as one character. Valid UTF-8 becomes its characters, and any other byte is shown as \x
// and two digits. Control characters, and those that change the direction of a text, are shown by their numbers.
const SEQUENCES = new RegExp('[\\xc2-\\xdf][\\x80-\\xbf]|\\xe0[\\xa0-\\xbf][\\x80-\\xbf]|\\xed[\\x80-\\x9f][\\x80-\\xbf]|' +
  '[\\xe1-\\xec\\xee\\xef][\\x80-\\xbf]{2}|\\xf0[\\x90-\\xbf][\\x80-\\xbf]{2}|[\\xf1-\\xf3][\\x80-\\xbf]{3}|\\xf4[\\x80-\\x8f][\\x80-\\xbf]{2}|' +
  '[\\x80-\\xff]', 'g');
const INVISIBLE = new RegExp('[\\0-\\x08\\x0b-\\x1f\\x7f-\\x9f\\xad\\u061c\\u180e\\u200b-\\u200f\\u2028-\\u202f\\u2060-\\u206f\\ufeff' +
  '\\ufff9-\\ufffb]', 'g');
const UNUSUAL = new RegExp('[^\\t\\n -~]');
function numbered(sign) {
  const code = sign.charCodeAt(0).toString(16);
  return code.length > 2 ? '\\u{' + code + '}' : '\\x' + code.padStart(2, '0');
}
function sequence(bytes) {
  return bytes.length === 1 ? numbered(bytes) : decodeURIComponent(bytes.replace(/./gs, byte => '%' + byte.charCodeAt(0).toString(16)));
}
function readable(text) {
  return UNUSUAL.test(text) ? text.replace(SEQUENCES, sequence).replace(INVISIBLE, numbered) : text;
}

// A value is its number, and after a blank the word that is shown for it, if one is. The number is looked up by the word.
const numbers = new Map();
function written(value) {
  const end = value.indexOf(' '), word = value.slice(end + 1);
  if (end > 0) numbers.set(word, value.slice(0, end));
  return word;
}

const processes = session.processes, count = processes.length;
for (const {variables} of processes) for (const variable of variables) variable[1] = written(variable[1]);
const lines = values.filter(([text]) => typeof text === 'string'), lineOperations = lines.map(() => []);
for (const value of values) if (typeof value[0] === 'number') lineOperations[value[0] - 1] = value.slice(1);
for (const line of lines) line.forEach((text, i) => line[i] = readable(text));
for (const {commands} of processes) for (const command of commands) command[1] = readable(command[1]);

// Events and states. They never change, and they share common parts, so that the state of each line can be kept.

// The item before the first event of process p, or before a choice that was not made yet.
function start(p, n, depth) {
  const made = {p, n, k: -1, sets: [], exchange: 0, depth, sender: null, values: null, clock: null};
  return made.before = made.far = made;
}
// The far link of the item after this one. Far links let `at` find the n-th item of a line in few steps.
function farLink(before) {
  return before.n - before.far.n === before.far.n - before.far.far.n ? before.far.far : before;
}
// The event after `before` in its process. `far` is an earlier one. `depth` is where the event is drawn: the event before it, and the one
// that sent its message, have a smaller depth.
function eventAfter(before, k, sets, exchange) {
  for (const set of sets) [set[1], set[2]] = [written(set[1]), written(set[2])];
  if (exchange) exchange[2] = written(exchange[2]);
  return {p: before.p, n: before.n + 1, k, sets, exchange, before, far: farLink(before), depth: 0, sender: null, values: null, clock: null};
}
// The n-th item of the line that ends with this one.
function at(last, n) {
  while (last.n > n) last = last.far.n >= n ? last.far : last.before;
  return last;
}
// A process's line: the last event made, and parts of its redo line, each with the events after number `from` up to `last`.
function undone(line, n) {
  const {done, later} = line;
  if (n >= done.n) return line;
  if (later && later.from === done.n && at(later.last, done.n) === done) {
    return {done: at(done, n), later: {last: later.last, from: n, rest: later.rest}};
  }
  return {done: at(done, n), later: {last: done, from: n, rest: later}};
}
function redone(later) {
  if (!later) return null;
  return later.from + 1 < later.last.n ? {last: later.last, from: later.from + 1, rest: later.rest} : later.rest;
}
function choices(line) {
  const found = [];
  for (let part = line.later; part; part = part.rest) {
    let event = part.last;
    const begin = found.length;
    found.length += part.last.n - part.from;
    for (let i = found.length - 1; i >= begin; i--, event = event.before) found[i] = event;
  }
  return found;
}

// The events of each process as a list, and of each channel the events that sent and received, in the order of the messages.
class Rows {
  constructor() {
    this.events = processes.map(() => []);
    this.channels = new Map();
  }
  channel(from, to) {
    const key = from * count + to;
    if (!this.channels.has(key)) this.channels.set(key, {from, to, sent: [], got: []});
    return this.channels.get(key);
  }
  list(event) {
    const [way, other] = event.exchange;
    return way === 's' ? this.channel(event.p, other).sent : this.channel(other, event.p).got;
  }
  // Brings process p to where its last event is this one.
  reach(p, done) {
    const events = this.events[p], missing = [];
    let event = done;
    for (; event.n > events.length; event = event.before) missing.push(event);
    for (; events.length > 0; event = event.before) {
      while (events.length > event.n) this.drop(events);
      if (events.length === 0 || events[events.length - 1] === event) break;
      this.drop(events);
      missing.push(event);
    }
    while (missing.length > 0) {
      const next = missing.pop();
      events.push(next);
      if (next.exchange) this.list(next)[next.exchange[3] - 1] = next;
    }
  }
  drop(events) {
    const event = events.pop();
    if (event.exchange) this.list(event).length = event.exchange[3] - 1;
  }
}

// The search for a breakpoint's cut is a line of eliminations. Before the first one, the candidate of each process is its start. An elimination
// says that no cut has fewer than `to` events of process p. If there is no `by`, the process's part is false after one event fewer. Otherwise
// the event `event` of process `by` depends on so many.
const noElimination = {n: 0, p: 0, to: 0, by: undefined, event: 0, heads: processes.map(() => 0)};
noElimination.before = noElimination.far = noElimination;
// The search after further eliminations, which are numbers: each is p and to, or -1 - p, to, by and event.
function eliminated(last, numbers) {
  for (let i = 0; i < numbers.length; i += 2) {
    const isPassed = numbers[i] < 0, p = isPassed ? -1 - numbers[i] : numbers[i], to = numbers[i + 1];
    const by = isPassed ? numbers[i + 2] : undefined, event = isPassed ? numbers[i + 3] : 0;
    last = {n: last.n + 1, p, to, by, event, before: last, far: farLink(last), heads: null};
    if (isPassed) i += 2;
  }
  return last;
}
// How many items two lines have in common, from the first one on.
function common(one, other) {
  let low = 0, high = Math.min(one.n, other.n);
  while (low < high) {
    const middle = (low + high + 1) >> 1;
    if (at(one, middle) === at(other, middle)) low = middle; else high = middle - 1;
  }
  return low;
}
// The candidates of the processes after an elimination. Every 64th elimination keeps them.
function headsAt(last) {
  const path = [];
  for (; !last.heads; last = last.before) path.push(last);
  const heads = last.heads.slice();
  while (path.length > 0) {
    const next = path.pop();
    heads[next.p] = next.to;
    if (next.n % 64 === 0) next.heads = heads.slice();
  }
  return heads;
}

// The search after such a change: so many of its last eliminations are gone, and others follow. Searches that were equal stay one.
function changedSearches(searches, [places, dropped, ...numbers]) {
  const changed = searches.slice(), made = new Map();
  for (let i = 0; i < places.length; i += 2) {
    for (let j = places[i]; j < places[i] + places[i + 1]; j++) {
      const old = searches[j];
      if (!made.has(old)) made.set(old, eliminated(at(old, old.n - dropped), numbers));
      changed[j] = made.get(old);
    }
  }
  return changed;
}

// The state after each line: `lines` of the processes, the breakpoints (`points`), their `searches` in the same order, and the name of the one
// that halts.
let state = {
  lines: processes.map((process, p) => {
    const done = start(p, 0, 0);
    done.values = new Map(process.variables);
    done.clock = processes.map(() => 0);
    return {done, later: null};
  }),
  points: [], searches: [], halting: null,
};
const states = [state];

// Where a breakpoint is among those of a state; -1 if it is not there.
function pointPlace({points}, name) { return points.findIndex(point => point.name === name); }
function withLine(p, line) {
  const changed = state.lines.slice();
  changed[p] = line;
  state = {...state, lines: changed};
}
function act(operation, fresh, given) {
  const [kind, p] = operation, line = state.lines[p];
  if (kind === 'e' || kind === 'r') {
    const event = eventAfter(line.done, ...operation.slice(2));
    fresh.push([event]);
    withLine(p, {done: event, later: kind === 'r' ? redone(line.later) : null});
  } else if (kind === 'u') {
    withLine(p, undone(line, line.done.n - 1));
  } else if (kind === 'p') {
    state = {...state, lines: state.lines.map((line, q) => undone(line, p[q]))};
  } else if (kind === 'b') {
    // Other operations give the changes of the breakpoints and their searches: after `back`, a search may have reached the same candidates by
    // other eliminations.
    if (given.length > 0) state = {...state, lines: given.pop().lines};
  } else if (kind === 'l') {
    let done = at(line.done, operation[2]), choice = null;
    const events = operation[3].map(parts => done = eventAfter(done, ...parts));
    for (const k of operation[4]) {
      choice = eventAfter(choice || start(p, done.n, 0), k, [], 0);
      choice.depth = choice.before.depth + 1;
    }
    fresh.push(events);
    withLine(p, {done, later: choice && {last: choice, from: done.n, rest: null}});
  } else if (kind === 'm') {
    const olds = p.map(([name, , parts]) => parts ? -1 : pointPlace(state, name));
    const points = p.map(([name, armed, parts], i) => parts ? {name, armed, parts} : {...state.points[olds[i]], armed});
    state = {...state, points, searches: olds.map(old => old < 0 ? noElimination : state.searches[old])};
  } else if (kind === 'c') {
    state = {...state, searches: p.reduce(changedSearches, state.searches)};
  } else if (kind === 'h') {
    state = {...state, halting: p};
  }
}
// Finds the senders of new events, and then the depth of each event, once the depths of the event before it and of its sender are known.
function settle(fresh, rows) {
  for (const event of fresh.flat()) {
    const [way, from, , n] = event.exchange || [];
    if (way !== 'r') continue;
    rows.reach(from, state.lines[from].done);
    event.sender = rows.channel(from, event.p).sent[n - 1] || null;
  }
  for (let moved = true; moved;) {
    moved = false;
    for (const events of fresh) {
      while (events.length > 0 && !(events[0].sender && events[0].sender.depth === 0)) {
        const event = events.shift();
        event.depth = 1 + Math.max(event.before.depth, event.sender ? event.sender.depth : 0);
        moved = true;
      }
    }
  }
}
{
  const rows = new Rows(), given = [];
  for (const [i, [, reply]] of lines.entries()) {
    const old = state, operations = lineOperations[i], fresh = [];
    for (const operation of operations) act(operation, fresh, given);
    if (fresh.length > 0) settle(fresh, rows);
    if (/^ok\b/.test(reply) && !operations.some(operation => operation[0] === 'b')) given.push(old);
    states.push(state);
  }
}

// The values of the variables after an event. Every 64th event keeps them.
function valuesAt(event) {
  const path = [];
  for (; !event.values; event = event.before) path.push(event);
  const values = new Map(event.values);
  while (path.length > 0) {
    event = path.pop();
    for (const [name, , value] of event.sets) values.set(name, value);
    if (event.n % 64 === 0) event.values = new Map(values);
  }
  return values;
}
// The clock of an event: the maximum of the clocks of the event before it and of the sender, and one more for its own process.
function clockAt(event) {
  for (const open = [event]; open.length > 0;) {
    const next = open[open.length - 1];
    const missing = [next.before, next.sender].find(cause => cause && !cause.clock);
    if (next.clock) {
      open.pop();
    } else if (missing) {
      open.push(missing);
    } else {
      const other = next.sender ? next.sender.clock : next.before.clock;
      next.clock = next.before.clock.map((own, p) => Math.max(own, other[p]));
      next.clock[next.p] += 1;
    }
  }
  return event.clock;
}
"#;
