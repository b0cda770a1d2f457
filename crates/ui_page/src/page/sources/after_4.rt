//! `tests/run page_sources --update` writes this file from `page/page.html` and what that includes.

pub(super) static TEXT: &str = r#"
// The parts of a predicate, evaluated as the process language says. A fault is an exception, and a part with a fault does not hold.
const LEAST = -(2n ** 63n), MOST = 2n ** 63n - 1n;
function inRange(number) {
  if (number < LEAST || number > MOST) throw new RangeError('the result is out of range');
  return number;
}
const OPERATORS = {
  '+': (one, other) => inRange(one + other), '-': (one, other) => inRange(one - other), '*': (one, other) => inRange(one * other),
  '/': (one, other) => inRange(one / other), '%': (one, other) => one % other,
  '=': (one, other) => one === other, '!=': (one, other) => one !== other,
  '<': (one, other) => one < other, '<=': (one, other) => one <= other, '>': (one, other) => one > other, '>=': (one, other) => one >= other,
};
function binary(operator, one, other) {
  if (operator === 'and') return state => one(state) && other(state);
  if (operator === 'or') return state => one(state) || other(state);
  const act = OPERATORS[operator];
  return state => act(one(state), other(state));
}
// The part as a function of a local state, which has a value for each variable and two counts for each other process.
function readPart(text) {
  const tokens = text.match(/\w+(?:\[\d+\])*|[!<>]=|[^\s\w]/g) || [];
  let at = 0;
  function countOf(way) {
    const other = processes.findIndex(({name}) => name === tokens[at + 1]);
    at += 3;
    return state => state[way](other);
  }
  function grouped() {
    const sign = tokens[at];
    let read;
    if (sign === 'not' || sign === '-') {
      at++;
      const operand = expression();
      read = sign === 'not' ? state => !operand(state) : state => inRange(-operand(state));
    } else {
      const one = expression(), operator = tokens[at++];
      read = tokens[at - 1] === ')' ? (at--, one) : binary(operator, one, expression());
    }
    at++;
    return read;
  }
  function expression() {
    const token = tokens[at++];
    if (token === '(') return grouped();
    if (token === 'true' || token === 'false') return () => token === 'true';
    if ((token === 'sent' || token === 'got') && tokens[at] === '(') return countOf(token);
    if (token === '-') return (number => () => number)(-BigInt(tokens[at++]));
    return /^\d/.test(token) ? (number => () => number)(BigInt(token)) : state => BigInt(numbers.get(state.values.get(token)) || state.values.get(token));
  }
  return expression();
}
const readParts = new Map();
// Whether a part of process p holds after n events, which set these values.
function holds(text, p, n, values) {
  if (!readParts.has(text)) readParts.set(text, readPart(text));
  const upTo = list => BigInt(firstWhere(list, event => event.n > n));
  try {
    return readParts.get(text)({values, sent: q => upTo(shown.channel(p, q).sent), got: q => upTo(shown.channel(q, p).got)}) === true;
  } catch {
    return false;
  }
}
// Event n of process p, which was made, or what is before its first event.
function madeEvent(p, n) { return n === 0 ? at(state.lines[p].done, 0) : shown.events[p][n - 1]; }
// Since which event a part has held, which holds after n events of process p. It is sought in the last thousand states.
const SEARCHED = 1000;
function heldSince(text, p, n) {
  const values = valuesAt(madeEvent(p, n)), least = Math.max(0, n - SEARCHED);
  for (let event = n; event > least; event--) {
    for (const [name, old] of madeEvent(p, event).sets) values.set(name, old);
    if (!holds(text, p, event - 1, values)) return 'holds since event ' + event;
  }
  return least === 0 ? 'holds from the start' : 'holds since event ' + least + ' or earlier';
}

// The breakpoint whose cut is shown as a state: the chosen one, or else the one that halts the session.
function shownCut() {
  const name = chosen && chosen.point !== undefined ? chosen.point : state.halting;
  const point = points.find(point => point.name === name);
  return point && point.cut ? point : null;
}
function isInside({cut}, {p, n}) { return n <= cut[p]; }
// The messages that are sent in a cut and not received in it: for each channel its processes and the values.
function crossing({cut}) {
  return [...shown.channels.values()].flatMap(({from, to, sent, got}) => {
    const first = firstWhere(got, event => event.n > cut[to]), end = firstWhere(sent, event => event.n > cut[from]);
    const values = sent.slice(first, Math.min(end, first + 50)).map(event => event.exchange[2]);
    return first < end ? [{from, to, values: end - first > 50 ? [...values, '..'] : values}] : [];
  });
}

// What led to the chosen event, and what depends on it. An event is in its past if its clock counts that event, and in its future if that
// event's clock counts it.
function chosenEvent() {
  const {p, n} = chosen || {};
  return n > 0 && p !== undefined && n <= shown.events[p].length ? shown.events[p][n - 1] : null;
}
function relation(event, middle) {
  if (!middle || event === middle) return '';
  if (clockAt(middle)[event.p] >= event.n) return ' past';
  return clockAt(event)[middle.p] >= middle.n ? ' future' : ' apart';
}
// The shortest chains to an event: of each other process in its past, an event from which the fewest messages lead there, as the events on the
// way, the last one first. Of those with as few messages, one with the fewest events is taken.
const CHAINED = 20000;
function chainsTo(middle) {
  const chains = new Map(), seen = new Set([middle]);
  for (let near = [{event: middle, rest: null}], count = 0; near.length > 0 && count < CHAINED;) {
    const far = [];
    for (const step of near) {
      for (let {event, rest} = step; event && event.n > 0 && count < CHAINED; count++) {
        if (event.p !== middle.p && !chains.has(event.p)) chains.set(event.p, {event, rest});
        const {sender, before} = event;
        if (sender && !seen.has(sender)) seen.add(sender), far.push({event: sender, rest: {event, rest}});
        if (!before || before.n === 0 || seen.has(before)) break;
        seen.add(before);
        [event, rest] = [before, {event, rest}];
      }
    }
    near = far;
  }
  return chains;
}
// The events of a chain, of which those of one process that follow one another are one span.
function chainText(step) {
  const spans = [];
  for (; step; step = step.rest) {
    const {p, n} = step.event, last = spans[spans.length - 1];
    if (last && last.q === p) last.to = n; else spans.push({q: p, from: n, to: n});
  }
  return spans.map(spanOf).join(' \u2192 ');
}
function chainDetails(middle) {
  const chains = [...chainsTo(middle)].sort(([p], [q]) => p - q);
  return chains.length > 0 ? [table('shortest chain of messages from', chains.map(([p, step]) => [processes[p].name, chainText(step)]))] : [];
}
// The first event of each process that depends on this one, and the last that the process made; none for the others.
function consequences(middle) {
  return processes.flatMap((process, q) => {
    const made = shown.events[q], first = firstWhere(made, event => clockAt(event)[middle.p] >= middle.n) + 1;
    const from = q === middle.p ? middle.n + 1 : first;
    return from <= made.length ? [{q, from, to: made.length}] : [];
  });
}
function spanOf({q, from, to}) { return processes[q].name + ' ' + from + (to > from ? '\u2013' + to : ''); }
// How many events come before and after it, and the command that undoes it with what depends on it.
function causeDetails(middle) {
  const after = consequences(middle), counts = after.reduce((sum, {from, to}) => sum + to - from + 1, 0);
  const before = clockAt(middle).reduce((sum, own) => sum + own, -1), others = shown.events.reduce((sum, made) => sum + made.length, -1);
  const {name} = processes[middle.p], command = counts === 0 ? 'undo ' + name : 'rollback ' + name + ' ' + (middle.n - 1);
  const copied = node('button', 'copy', {'aria-label': 'Copy the command ' + command});
  copied.onclick = () => copyText(command, copied);
  return [node('p', 'after ' + before + ' of ' + others + ' other events; ' + counts + (counts === 1 ? ' comes' : ' come') + ' after it'),
    node('p', ['to undo it', counts === 0 ? ' alone: ' : ' with ' + after.map(spanOf).join(', ') + ': ', node('code', command), ' ', copied],
      {class: 'undoing'})];
}

// The details below the drawing.
function node(tag, parts, attributes = {}) {
  const made = document.createElement(tag);
  for (const name in attributes) made.setAttribute(name, attributes[name]);
  made.append(...[parts].flat());
  return made;
}
function table(caption, rows, kind = '') {
  const body = rows.map(([head, ...cells]) => node('tr', [node('th', head, {scope: 'row'}), ...cells.map(cell => node('td', cell))], {class: kind}));
  return node('table', [node('caption', caption), ...body]);
}
function choosing(text, what) {
  const made = node('button', text);
  made.onclick = () => choose(what);
  return made;
}
function link(p, n) { return choosing('event ' + n + ' of ' + processes[p].name, {p, n}); }
function exchanged(event) {
  const [way, other, value, n] = event.exchange, name = processes[other].name;
  const channel = way === 's' ? shown.channel(event.p, other) : shown.channel(other, event.p);
  const end = way === 's' ? channel.got[n - 1] : channel.sent[n - 1], [from, to] = way === 's' ? [event.p, other] : [other, event.p];
  const message = choosing('message ' + n, {from, to, message: n - 1});
  if (way === 'r') return ['received ' + value + ' from ' + name + ', its ', message, ', sent by ', end ? link(other, end.n) : name];
  return ['sent ' + value + ' to ' + name + ', ', message, ', ', ...end ? ['received by ', link(other, end.n)] : ['on its way']];
}
function eventDetails({p, n}) {
  const {name, variables, commands} = processes[p], event = n === 0 ? at(state.lines[p].done, 0) : eventAt(p, n);
  if (!event) return [node('h2', name + ' has no event ' + n + ' here')];
  const isMade = n <= shown.events[p].length, details = [node('h2', summary(p, n))];
  if (n > 0) {
    const [line] = commands[event.k] || ['?'];
    details.push(node('p', [commandName(event) + ' in line ' + line + ': ', node('code', commandText(p, event.k))]));
  }
  if (!isMade) return event.sets.length > 0 || event.exchange ? [...details, node('p', 'as it was made before: ' + deeds(event))] : details;
  if (event.exchange) details.push(node('p', exchanged(event)));
  if (n > 0) details.push(...causeDetails(event));
  const values = valuesAt(event), sets = new Map(event.sets.map(([name, old]) => [name, old]));
  const local = variables.map(([name]) => [name, values.get(name), ...sets.has(name) ? ['was ' + sets.get(name)] : []]);
  const clock = clockAt(event).map((own, q) => [processes[q].name, String(own)]);
  const upTo = list => firstWhere(list, other => other.n > n);
  const counts = processes.map((other, q) => [other.name, upTo(shown.channel(p, q).sent), upTo(shown.channel(q, p).got)]);
  const messages = counts.filter(([, sent, got]) => sent + got > 0).map(([name, sent, got]) => [name, 'sent ' + sent, 'got ' + got]);
  const upToIt = messages.length > 0 ? [table('messages up to it', messages)] : [];
  const chains = n > 0 ? chainDetails(event) : [];
  details.push(node('div', [table('variables after it', local), table('its clock', clock), ...upToIt, ...chains], {class: 'parts'}));
  return details;
}
// A message: its events, and whether it crosses the cut that is shown.
function messageDetails({from, to, message}) {
  const {sent, got} = shown.channel(from, to), event = sent[message], end = got[message], cut = shownCut();
  if (!event) return [node('h2', processes[from].name + ' has sent no message ' + (message + 1) + ' to ' + processes[to].name + ' here')];
  const crosses = cut && isInside(cut, event) && !(end && isInside(cut, end));
  return [node('h2', messageName(event, end)), node('p', ['sent by ', link(from, event.n), ': ' + deeds(event)]),
    node('p', end ? ['received by ', link(to, end.n), ': ' + deeds(end)] : 'it is on its way'),
    node('p', 'message ' + (message + 1) + ' of ' + sent.length + ' from ' + processes[from].name + ' to ' + processes[to].name +
      (got.length < sent.length ? '; ' + got.length + ' are received' : '')),
    ...crosses ? [node('p', 'it crosses the cut of ' + cut.name)] : []];
}
function detailsOf(what) {
  return what.point !== undefined ? pointDetails(what.point) : what.message !== undefined ? messageDetails(what) : eventDetails(what);
}
function counted(n) { return n + (n === 1 ? ' event' : ' events'); }
// Why the candidate of a process advanced.
function reason({p, to, by, event}) {
  const {name} = processes[p];
  if (by === undefined) return name + (to === 1 ? ' at its start' : ' after ' + counted(to - 1)) + ': its part is false';
  return name + ' needs ' + counted(to) + ': event ' + event + ' of ' + processes[by].name + ' depends on that';
}
const HELP = 'Arrow keys, Page Up, Page Down, Home and End go through the lines, h and H through the halts, and / searches. A click chooses an ' +
  'event, a name or a breakpoint; so does Enter, after Tab and arrow keys have reached it. Shift with an arrow key continues from it; Escape ends ' +
  'the choice. f fits the drawing to the window, + and - change its size, and p shows the program.';
// The events of a process that a line made or undid: their number went from `before` to `after`.
function changeOf(p, before, after) {
  if (after < before) return node('p', ['undone: ', before - after === 1 ? '' : 'the ' + counted(before - after) + ' from ', link(p, after + 1)]);
  return [...shown.events[p].slice(before, after)].map(event => node('p', [link(p, event.n), ': ' + deeds(event)]));
}
// What a line did, or why it was refused.
function lineDetails() {
  if (place === 0) return [];
  const [text, , explained] = lines[place - 1], old = states[place - 1].lines;
  const changes = state.lines.flatMap((line, p) => line === old[p] ? [] : changeOf(p, old[p].done.n, line.done.n));
  const refused = explained ? explained.trimEnd().split('\n').map(line => node('p', line, {class: 'explained'})) : [];
  return changes.length + refused.length > 0 ? [node('h2', ['line ' + place + ': ', node('code', text)]), ...changes, ...refused] : [];
}
function stateDetails() {
  const rows = state.lines.map(({done}, p) => {
    const values = [...valuesAt(done)].map(([name, value]) => name + '=' + value).join(' '), again = later[p].events.length;
    return [processes[p].name, counted(done.n) + (again ? ', ' + again + ' to redo' : ''), values];
  });
  const ways = [...shown.channels.values()].filter(({sent, got}) => sent.length > got.length).map(({from, to, sent, got}) => {
    const values = sent.slice(got.length, got.length + 50).map(event => event.exchange[2]).join(' ');
    return [processes[from].name + ' to ' + processes[to].name, values + (sent.length > got.length + 50 ? ' ..' : '')];
  });
  const halting = points.find(({name}) => name === state.halting);
  const aboutLine = lineDetails(), aboutHalt = halting ? cutDetails(halting) : [], isRefused = place > 0 && lines[place - 1].length > 2;
  return [...isRefused ? [...aboutLine, ...aboutHalt] : [...aboutHalt, ...aboutLine], node('h2', 'all processes'),
    node('div', [table('', rows), ...ways.length ? [table('on their way', ways)] : []], {class: 'parts'}), node('p', HELP, {class: 'help'})];
}
// Replaces those parts that have changed, so that a selection of text in the others stays.
function update(parent, parts) {
  let old = parent.firstChild;
  for (const part of [...node('div', parts).childNodes]) {
    let same = old;
    while (same && !same.isEqualNode(part)) same = same.nextSibling;
    while (same && old !== same) old = removed(old);
    if (same) old = same.nextSibling; else parent.insertBefore(part, old);
  }
  while (old) old = removed(old);
}
// Removes a part, and gives the one after it.
function removed(part) {
  const next = part.nextSibling;
  part.remove();
  return next;
}
function showDetails() {
  const details = find('details'), hadFocus = details.contains(document.activeElement) && details !== document.activeElement;
  update(details, chosen ? detailsOf(chosen) : stateDetails());
  if (hadFocus && !details.contains(document.activeElement)) details.focus();
}
function showPoints() {
  const area = find('points');
  while (area.children.length > points.length) {
    if (area.lastChild === document.activeElement) listArea.focus();
    area.lastChild.remove();
  }
  points.forEach(({name, armed, cut}, i) => {
    const button = area.children[i] || area.appendChild(node('button', ''));
    const isHalting = state.halting === name;
    const parts = [!cut ? 'no cut' : count > 8 ? 'cut' : 'cut ' + cut.join(' '), ...armed ? [] : ['not armed'], ...isHalting ? ['halts'] : []];
    setText(button, name + ': ' + parts.join(', '));
    button.chooses = {point: name};
    set(button, {class: colourOf(name) + (isHalting ? ' halting' : ''), 'aria-pressed': Boolean(chosen && chosen.point === name)});
  });
}
"#;
