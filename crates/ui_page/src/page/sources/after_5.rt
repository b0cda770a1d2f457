//! `tests/run page_sources --update` writes this file from `page/page.html` and what that includes.

pub(super) static TEXT: &str = r#"
// Why the candidate of a process advanced.
function reason({p, to, by, event}) {
  const {name} = processes[p];
  if (by === undefined) return name + (to === 1 ? ' at its start' : ' after ' + counted(to - 1)) + ': its part is false';
  return name + ' needs ' + counted(to) + ': event ' + event + ' of ' + processes[by].name + ' depends on that';
}
// The last eliminations of a search, with those of the current line in bold.
const SHOWN_STEPS = 200;
function searchSteps(name, last) {
  const before = states[Math.max(0, place - 1)], old = before.searches[pointPlace(before, name)], items = [];
  const kept = old ? common(old, last) : last.n;
  for (let step = last; step.n > 0 && items.length < SHOWN_STEPS; step = step.before) {
    items.push(node('li', step.n > kept ? node('b', reason(step)) : reason(step), {value: step.n}));
  }
  const more = last.n - items.length, note = more > 0 ? [node('p', 'the last ' + items.length + ' of ' + last.n + ' steps')] : [];
  return node('div', [...note, node('ol', items.reverse())], {class: 'search'});
}
// The search is folded, until the reader opens it. Only then the details have it.
let isSearchOpen = false;
function searchParts({name, search, frontier}) {
  const counts = table('frontier: events of', frontier.map((n, p) => [processes[p].name, n < 0 ? 'past' : String(n)]));
  counts.className = 'counts';
  return node('div', [counts, searchSteps(name, search)], {class: 'parts'});
}
function searchDetails(point) {
  const {n} = point.search, heading = n === 0 ? 'no state was ruled out' : n === 1 ? '1 state was ruled out' : n + ' states were ruled out';
  const made = node('details', node('summary', 'search: ' + heading), isSearchOpen ? {open: ''} : {});
  if (isSearchOpen) made.append(searchParts(point));
  made.ontoggle = () => {
    if (isSearchOpen === made.open) return;
    isSearchOpen = made.open;
    if (isSearchOpen) made.append(searchParts(points.find(({name}) => name === point.name) || point)); else made.lastChild.remove();
  };
  return made;
}

// The parts of a predicate, as one condition.
function predicateOf({parts}) { return parts.map(([p, text, shown]) => processes[p].name + ' ' + (shown || text)).join(' and '); }
// A process in a cut: its events in it and in all, its part of the predicate, since when that holds, and its variables.
function cutRow({cut, parts}, p) {
  const n = cut[p], part = parts.find(([q]) => q === p), made = state.lines[p].done.n;
  const values = [...valuesAt(madeEvent(p, n)), ...countsOf(part ? part[1] : '', p, n)].map(([name, value]) => name + '=' + value).join(' ');
  return [unbroken(processes[p].name), n + ' of ' + made, part ? unbroken(part[2] || part[1]) : '', part ? heldSince(part[1], p, n) : '', values];
}
// A text that no line break divides, unless it is long.
function unbroken(text) { return text.length > 20 ? text : node('span', text, {class: 'whole'}); }
// The counts of messages that a part names, after n events of process p.
function countsOf(text, p, n) {
  return [...new Set(text.match(/\b(?:sent|got)\(\w+\)/g) || [])].map(count => {
    const [way, name] = count.split(/[()]/), other = processes.findIndex(process => process.name === name);
    const events = way === 'sent' ? shown.channel(p, other).sent : shown.channel(other, p).got;
    return [count, String(firstWhere(events, event => event.n > n))];
  });
}
const HEADS = ['process', 'events', 'predicate', 'part', 'variables'];
// The state in the cut. The processes that the predicate names come first.
function cutDetails(point) {
  const {name, parts} = point, isNamed = p => parts.some(([q]) => q === p);
  const order = [...processes.keys()].sort((p, q) => isNamed(q) - isNamed(p)), rows = order.map(p => cutRow(point, p));
  const made = table('state in the cut', rows), channels = crossing(point);
  made.createTHead().append(node('tr', HEADS.map(head => node('th', head, {scope: 'col'}))));
  made.className = 'state';
  parts.forEach((part, i) => made.rows[i + 1].className = 'part');
  const ways = channels.map(({from, to, values}) => [processes[from].name + ' to ' + processes[to].name, values.join(' ')]);
  const messages = ways.length > 0 ? table('messages that cross the cut', ways) : node('p', 'no message crosses the cut', {class: 'caption'});
  const heading = state.halting === name ? 'halted by ' + name : 'breakpoint ' + name;
  return [node('h2', heading), node('p', node('code', predicateOf(point)), {class: colourOf(name)}),
    node('div', [made, messages], {class: 'parts'}), searchDetails(point)];
}
function pointDetails(name) {
  const point = points.find(point => point.name === name);
  if (!point) return [node('h2', 'breakpoint ' + name), node('p', hidden.points.has(name) ? 'hidden' : 'not set here')];
  const found = state.halting === name ? ', halts the session' : point.cut ? ', has a cut' : ', has no cut';
  const mark = node('p', (point.armed ? 'armed' : 'not armed') + found);
  if (point.cut) return [...cutDetails(point), mark];
  return [node('h2', 'breakpoint ' + name), node('p', node('code', predicateOf(point)), {class: colourOf(name)}), mark, searchDetails(point)];
}

// The lines that are listed. Row 0 is the start. A row stays as long as its line is visible, so that a selection of its text stays.
const HIGH = 42, list = listArea.querySelector('.window'), rows = new Map();
function makeRow(n) {
  const [text, reply] = n === 0 ? ['start', ''] : lines[n - 1];
  const kind = /^no\b/.test(reply) ? ' refused' : / halted \w+$/.test(reply) ? ' halts' : '';
  const parts = [node('span', n || '', {class: 'number'}), node('div', text), node('div', reply || ' ', {class: 'reply' + kind})];
  const row = node('div', parts, {role: 'option', id: 'line' + n, title: text + (reply && ' -> ' + reply)});
  row.line = n;
  rows.set(n, row);
  return list.appendChild(row);
}
function paintLines() {
  const high = listArea.clientHeight, top = listScroll.offset, first = Math.floor(top / HIGH);
  const seen = listed.slice(first, first + Math.ceil(high / HIGH) + 1);
  list.style.height = high + 'px';
  for (const [n, row] of rows) {
    if (n >= seen[0] && n <= seen[seen.length - 1] && listed[listPlace(n)] === n) continue;
    rows.delete(n);
    row.remove();
  }
  seen.forEach((n, i) => {
    const row = rows.get(n) || makeRow(n);
    row.style.top = (first + i) * HIGH - top + 'px';
    set(row, {class: n === place ? 'row chosen' : 'row', 'aria-selected': n === place});
    set(row, {'aria-posinset': first + i + 1, 'aria-setsize': listed.length});
  });
  set(listArea, {'aria-activedescendant': 'line' + listed[listPlace(place)]});
}
function revealLine() {
  const top = listPlace(place) * HIGH, seen = listArea.clientHeight;
  if (top < listScroll.offset || top + HIGH > listScroll.offset + seen) listScroll.offset = top - (seen - HIGH) / 2;
}
function relist() {
  listLines();
  listScroll.resize(listed.length * HIGH);
}
relist();

// The program as it was written, up to the lines of the session, with the command of the chosen event, or of the event that the line made, marked.
const programLines = readable(session.program || '').split(/^%%\s*$/m)[0].replace(/\s+$/, '').split('\n');
// A line of the program, with as many signs, in which comments and their words are blank.
function withoutComment(line) { return line.replace(/#.*/, comment => ' '.repeat(comment.length)); }
// The lines of commands of process p that begin in the same line of the text.
function commandsIn(p, line) { return processes[p].commands.flatMap(([at], k) => at === line ? [k] : []); }
// Where command k of process p is in the program: its line, from 0, and where it begins in the line. If several commands begin in the line, a
// repetition may have made more of each, one round after the other.
function commandStart(p, k) {
  const [line] = processes[p].commands[k] || [0];
  if (!line || line > programLines.length) return null;
  const text = withoutComment(programLines[line - 1]), begins = [...text.matchAll(/(?:\b\w+\s*:\s*)?\bwhen\b/g)].map(({index}) => index);
  if (begins.length === 0) return {line: line - 1, from: text.search(/\S/)};
  // (the members of a family have the same commands)
  const family = ({name}) => name.replace(/_\d.*/, '');
  const before = processes.slice(0, p).some((process, q) => family(process) !== family(processes[p]) && commandsIn(q, line).length > 0);
  const at = commandsIn(p, line).indexOf(k) % begins.length;
  return {line: line - 1, from: before && begins.length > 1 ? text.search(/\S/) : begins[at]};
}
// The parts of the program that a command takes: of each line the first and the last sign.
function commandParts(p, k) {
  const begin = commandStart(p, k), parts = new Map();
  if (!begin) return parts;
  for (let {line, from} = begin; line < programLines.length; line++, from = 0) {
    const text = withoutComment(programLines[line]), end = text.indexOf(';', from);
    parts.set(line, [from, end < 0 ? programLines[line].length : end + 1]);
    if (end >= 0) break;
  }
  return parts;
}
// The whole command in one line, or as much as the page has of it.
function commandText(p, k) {
  const parts = [...commandParts(p, k)].map(([line, [from, to]]) => withoutComment(programLines[line]).slice(from, to).trim());
  return parts.filter(part => part).join(' ') || (processes[p].commands[k] || [0, ''])[1];
}
// The event whose command is marked.
function markedEvent() {
  if (chosen && chosen.p !== undefined) return chosen.n > 0 ? eventAt(chosen.p, chosen.n) : null;
  if (chosen) return null;
  const p = latest(place).findIndex(n => n > 0);
  return p < 0 ? null : eventAt(p, latest(place)[p]);
}
let isProgramShown = false;
function programLine(text, part) {
  if (!part) return node('div', text || ' ');
  const [from, to] = part;
  return node('div', [text.slice(0, from), node('mark', text.slice(from, to)), text.slice(to)]);
}
// Marks the command. Only the lines that change are made anew.
let markedLines = [];
function markProgram() {
  if (!isProgramShown) return;
  const event = markedEvent(), parts = event ? commandParts(event.p, event.k) : new Map(), area = find('program');
  if (area.childElementCount === 0) area.append(...programLines.map(text => programLine(text)));
  for (const line of new Set([...markedLines, ...parts.keys()])) {
    const row = area.children[line], made = programLine(programLines[line], parts.get(line));
    if (!row.isEqualNode(made)) row.replaceWith(made);
  }
  markedLines = [...parts.keys()];
  const mark = area.querySelector('mark');
  if (!mark) return;
  const box = mark.getBoundingClientRect(), whole = area.getBoundingClientRect();
  if (box.top < whole.top || box.bottom > whole.bottom) area.scrollTop += box.top - whole.top - whole.height / 3;
}
function showProgram(isOn) {
  isProgramShown = isOn;
  find('below').classList.toggle('with-program', isOn);
  set(find('code'), {'aria-pressed': isOn});
  markProgram();
}
function toggleProgram() { showProgram(!isProgramShown); }
showProgram(Boolean(session.program) && innerWidth >= 1100);

// The address ends in the number of the line. After a colon, the chosen breakpoint follows, or the chosen process and the number of its event,
// or the processes and the number of a message.
function choiceEnd({point, p, n, from, to, message}) {
  if (point !== undefined) return ':' + point;
  return message !== undefined ? ':' + [processes[from].name, processes[to].name, message + 1].join(':') : ':' + processes[p].name + ':' + n;
}
function addressEnd() { return '#' + place + (chosen ? choiceEnd(chosen) : ''); }
function choiceAt(names) {
  const places = names.map(name => processes.findIndex(process => process.name === name)), [p, q] = places, last = names[names.length - 1];
  const number = /^\d+$/.test(last) ? Number(last) : -1;
  if (names.length === 3 && p >= 0 && q >= 0 && number > 0) return {from: p, to: q, message: number - 1};
  if (names.length === 2 && p >= 0 && number >= 0) return {p, n: number};
  return names.length === 1 && last ? {point: last} : null;
}
// Shows what the end of an address names, and otherwise where the session halts first. What was shown before no longer becomes the address.
function openAt(end) {
  clearTimeout(addressWaits);
  const [line, ...names] = end.slice(1).split(':');
  if (/^\d+$/.test(line)) place = Math.min(lines.length, Number(line));
  chosen = choiceAt(names);
  show({isMoved: true, isChosen: chosen !== null});
}
// The file's name, from the address of the page, without its ending; or else the names of the processes.
function sessionName() {
  let file = location.pathname.split('/').pop();
  try {
    file = decodeURIComponent(file);
  } catch {
    // The name is shown as it is.
  }
  return readable(file).replace(/\.html?$/, '') || processes.map(({name}) => name).join(', ');
}
function shownTitle() {
  const line = place === 0 ? 'start' : 'line ' + place;
  return [sessionName(), line, ...state.halting ? ['halted ' + state.halting] : []].join(', ');
}
// The address follows a moment later, because browsers limit how often it may change. Back leads to where a jump began.
let addressWaits = 0;
function noteAddress() {
  document.title = shownTitle();
  clearTimeout(addressWaits);
  addressWaits = setTimeout(writeAddress, 250);
}
function writeAddress() {
  if (location.hash === addressEnd()) return;
  const isJump = location.hash && !playing && Math.abs(place - parseInt(location.hash.slice(1))) > 1;
  try {
    history[isJump ? 'pushState' : 'replaceState'](null, '', addressEnd());
  } catch {
    // The browser lets this page have no address of its own.
  }
}
addEventListener('hashchange', event => openAt(new URL(event.newURL).hash));

// Shows for a moment, in place of a button's text, that it has done its work.
function confirmIn(button, text) {
  const before = button.textContent;
  button.textContent = text;
  setTimeout(() => button.textContent = before, 1200);
}
function copySelected(text) {
  const field = document.body.appendChild(node('textarea', text, {class: 'outside'}));
  field.select();
  const isCopied = document.execCommand('copy');
  field.remove();
  return isCopied;
}
async function copyText(text, button) {
  let isCopied = true;
  try {
    await navigator.clipboard.writeText(text);
  } catch {
    isCopied = copySelected(text);
    button.focus();
  }
  confirmIn(button, isCopied ? 'copied' : 'not copied');
}
function copyLink() {
  writeAddress();
  copyText(location.href.replace(/#.*/, '') + addressEnd(), find('copy'));
}
// What is said of the state, as text: the line with its reply, and the details. Cells are below each other.
function tableText(table) {
  const texts = [...table.rows].map(row => [...row.cells].map(cell => cell.textContent.trim()));
  const widths = texts.reduce((all, row) => row.map((text, i) => Math.max(all[i] || 0, text.length)).concat(all.slice(row.length)), []);
  const lines = texts.map(row => '  ' + row.map((text, i) => text.padEnd(widths[i] + 2)).join('').trimEnd());
  return [...table.caption.textContent ? [table.caption.textContent] : [], ...lines];
}
function textOf(part) {
  if (part.matches('.help, details')) return [];
  if (part.matches('table')) return tableText(part);
  if (part.matches('.parts')) return [...part.children].flatMap(textOf);
  const parts = [...part.childNodes].filter(child => child.nodeType === 3 || !child.matches('[aria-label^="Copy"]'));
  return [parts.map(child => child.textContent).join('').trim()];
}
function copyAsText() {
  const parts = [...find('details').children].flatMap(part => part.matches('h2') ? ['', ...textOf(part)] : textOf(part));
  copyText([sessionName(), find('said').textContent, ...parts].join('\n') + '\n', find('text'));
}

// The whole drawing as a file of its own: each shape with the look that it has here.
const LOOKS = ['fill', 'fill-opacity', 'stroke', 'stroke-width', 'stroke-dasharray', 'stroke-linejoin', 'opacity', 'color', 'font-family',
  'font-size', 'font-weight', 'text-anchor', 'paint-order'];
function copyLooks(from, to) {
  const looks = getComputedStyle(from), copies = [...to.children];
  for (const name of LOOKS) to.style.setProperty(name, looks.getPropertyValue(name));
  for (const name of ['tabindex', 'role', 'class', 'aria-describedby']) to.removeAttribute(name);
  [...from.children].forEach((child, i) => copyLooks(child, copies[i]));
  if (from.matches('.gone, desc')) to.remove();
}
function drawingFile() {
  const copy = svg.cloneNode(true), ground = document.createElementNS(SVG, 'rect');
  copyLooks(svg, copy);
  set(copy, {xmlns: SVG, role: 'img'});
  set(ground, {width: wide, height: high, fill: getComputedStyle(document.body).backgroundColor});
  const title = document.createElementNS(SVG, 'title');
  title.textContent = shownTitle();
  copy.prepend(title, ground);
  return new XMLSerializer().serializeToString(copy);
}
function save() {
  const link = node('a', '', {download: sessionName().replace(/[^\w.-]+/g, '_') + '-line-' + place + '.svg'});
  drawWhole(true);
  link.href = URL.createObjectURL(new Blob([drawingFile()], {type: 'image/svg+xml'}));
  drawWhole(false);
  link.click();
  setTimeout(() => URL.revokeObjectURL(link.href), 10000);
  confirmIn(find('save'), 'saved');
}
"#;
