//! `tests/run page_sources --update` writes this file from `page/page.html` and what that includes.

pub(super) static TEXT: &str = r#"
// The first position in a list from which on the test holds.
function firstWhere(list, test) {
  let low = 0, high = list.length;
  while (low < high) {
    const middle = (low + high) >> 1;
    if (test(list[middle])) high = middle; else low = middle + 1;
  }
  return low;
}

// An area that scrolls over so many pixels. Browsers limit the size of its content, so beyond that it scrolls in larger steps.
class Scroll {
  constructor(area, ways) {
    this.area = area;
    this.ground = area.firstElementChild;
    [this.from, this.view, this.size] = ways;
    this.whole = 0;
  }
  resize(whole) {
    if (whole === this.whole) return;
    this.whole = whole;
    this.ground.style[this.size] = Math.min(whole, 8e6) + 'px';
  }
  get scale() {
    const view = this.area[this.view];
    return this.whole > 8e6 ? (this.whole - view) / (8e6 - view) : 1;
  }
  get offset() { return Math.max(0, Math.min(this.area[this.from] * this.scale, this.whole - this.area[this.view])); }
  set offset(pixels) { this.area[this.from] = Math.max(0, pixels) / this.scale; }
}
const downward = ['scrollTop', 'clientHeight', 'height'];
const area = find('drawing'), listArea = find('lines'), listScroll = new Scroll(listArea, downward);
const across = new Scroll(area, ['scrollLeft', 'clientWidth', 'width']), down = new Scroll(area, downward);

// The lines that halt the session.
const halts = lines.flatMap(([, reply], at) => / halted \w+$/.test(reply) ? [at + 1] : []);
// The shown state, which is the one after the first `place` lines, and the chosen event {p, n} or breakpoint {point}. The page opens where
// the session halts first, or at its end.
let place = halts.length > 0 ? halts[0] : lines.length, chosen = null, playing = 0;
const shown = new Rows(), later = processes.map(() => ({line: null, events: []}));
// The colour and the pattern of each breakpoint, those of a drawing, in the order in which breakpoints were set. Red is for the one that halts.
const colours = new Map();
states.forEach(({points}, n) => {
  if (n > 0 && points === states[n - 1].points) return;
  for (const {name} of points) if (!colours.has(name)) colours.set(name, 'c' + (1 + colours.size % 4) + ' dash' + colours.size % 5);
});
function colourOf(name) { return state.halting === name ? 'c0' : colours.get(name); }
let points = [], shownLine = -1;

// The processes from the top down: those of the breakpoint that halts the session first, in its order, and then the others.
function violators({points, halting}) {
  const point = points.find(({name}) => name === halting);
  return point ? point.parts.map(([p]) => p) : [];
}
const order = [...new Set([...halts.length > 0 ? violators(states[halts[0]]) : [], ...processes.keys()])];
// What is hidden, and the row of each process that is drawn.
const hidden = {processes: new Set(), points: new Set(), isQuestions: false};
let rowOf = [], rowCount = 0;
function placeRows() {
  rowCount = 0;
  for (const p of order) rowOf[p] = hidden.processes.has(p) ? -1 : rowCount++;
}
placeRows();
// The process of the next drawn row, downward or upward; undefined if there is none.
function nextRow(p, step) {
  for (let i = order.indexOf(p) + step; i >= 0 && i < count; i += step) if (rowOf[order[i]] >= 0) return order[i];
}
// A line that only asks has a reply that neither accepts nor refuses a command.
function isQuestion(n) { return n > 0 && !/^(ok|no)\b|^$/.test(lines[n - 1][1]); }
// The numbers of the lines in the list, and where line n, or the listed one before it, is in the list.
let listed = [];
function listLines() {
  listed = [];
  for (let n = 0; n <= lines.length; n++) if (!hidden.isQuestions || !isQuestion(n)) listed.push(n);
}
function listPlace(n) { return firstWhere(listed, line => line > n) - 1; }
listLines();

function sizeOf(p) { return p === undefined ? -1 : shown.events[p].length + later[p].events.length; }
function eventAt(p, n) {
  const made = shown.events[p];
  return n <= made.length ? made[n - 1] : (later[p].events[n - made.length - 1] || {}).event;
}
function depthAt(p, n) {
  const made = shown.events[p];
  return n === 0 ? 0 : n <= made.length ? made[n - 1].depth : later[p].events[n - made.length - 1].depth;
}
// How far the search for a breakpoint's cut came: the frontier, with -1 for a process that is past, and the cut, if there is one.
function found(point, i) {
  const search = state.searches[i], heads = headsAt(search), frontier = heads.map((n, p) => n > state.lines[p].done.n ? -1 : n);
  return {...point, search, frontier, cut: frontier.includes(-1) ? null : heads};
}
// Shows the state of the place.
function follow() {
  state = states[place];
  points = state.points.map(found).filter(({name}) => !hidden.points.has(name));
  state.lines.forEach((line, p) => {
    if (later[p].line === line) return;
    shown.reach(p, line.done);
    let depth = line.done.depth;
    later[p] = {line, events: choices(line).map(event => ({event, depth: depth = Math.max(depth + 1, event.depth)}))};
  });
}
// For each process that this line changed, the number of the event that the line made or undid; 0 for the others.
function latest(n) {
  const old = states[Math.max(0, n - 1)].lines;
  return states[n].lines.map((line, p) => {
    if (old[p] === line) return 0;
    return line.done.n >= old[p].done.n ? line.done.n : line.later ? line.done.n + 1 : 0;
  });
}

const SVG = 'http://www.w3.org/2000/svg', svg = area.querySelector('svg');
function shape(tag, parent, attributes = {}) {
  const made = document.createElementNS(SVG, tag);
  for (const name in attributes) made.setAttribute(name, attributes[name]);
  return parent.appendChild(made);
}
function set(element, attributes) {
  for (const name in attributes) if (element.getAttribute(name) !== String(attributes[name])) element.setAttribute(name, attributes[name]);
}
// Sets a text if it is another one, so that a selection of it stays.
function setText(element, text) { if (element.textContent !== String(text)) element.textContent = text; }
// A name in so many characters, without its middle: names that begin alike often end otherwise.
function shortName(name, most) {
  const end = Math.floor((most - 2) / 2);
  return name.length <= most || end < 1 ? short(name, most) : name.slice(0, most - 2 - end) + '..' + name.slice(-end);
}
function short(text, most) { return text.length <= most ? text : most < 4 ? text.slice(0, Math.max(0, most)) : text.slice(0, most - 2) + '..'; }
shape('desc', svg, {id: 'described'}).textContent = 'Each process is a line from left to right, with its events in the order in which it makes ' +
  'them. Arrows are messages. Events that can be redone are pale. The cut of a breakpoint is a line across the processes. Arrow keys go from ' +
  'event to event, and Enter chooses one.';
svg.setAttribute('aria-describedby', 'described');

// Elements that stay as long as the things that they show, in the order in which they are named. Each is a group of these tags, and the last
// one is its name.
class Layer {
  constructor(name) {
    this.group = shape('g', svg, {class: name});
    this.kept = new Map();
  }
  begin(fades) {
    this.fades = fades;
    this.used = new Set();
    this.cursor = this.group.firstChild;
  }
  make(key, tags, chooses) {
    const item = shape('g', this.group);
    for (const tag of tags) shape(tag, item);
    set(item, chooses && chooses.p !== undefined ? {tabindex: -1, role: 'button'} : {role: 'img'});
    item.chooses = chooses;
    item.isNew = this.fades;
    if (this.fades) requestAnimationFrame(() => requestAnimationFrame(() => {
      item.isNew = false;
      item.classList.remove('new');
    }));
    this.kept.set(key, item);
    return item;
  }
  item(key, kind, tags, chooses) {
    const item = this.kept.get(key) || this.make(key, tags, chooses);
    this.used.add(key);
    set(item, {class: kind + (item.isNew ? ' new' : '')});
    while (this.cursor && this.cursor.isGone) this.cursor = this.cursor.nextSibling;
    if (this.cursor === item) this.cursor = item.nextSibling; else this.group.insertBefore(item, this.cursor);
    return item.children;
  }
  end() {
    for (const [key, item] of this.kept) {
      if (this.used.has(key)) continue;
      this.kept.delete(key);
      item.isGone = true;
      if (item === document.activeElement) area.focus({preventScroll: true});
      item.removeAttribute('tabindex');
      item.classList.add('gone');
      if (this.fades) setTimeout(() => item.remove(), 260); else item.remove();
    }
  }
}
function nameItem(title, text) {
  setText(title, text);
  set(title.parentNode, {'aria-label': text});
}
const [rails, cuts, arrows, marks, names, labels] = ['rails', 'cuts', 'arrows', 'marks', 'names', 'labels'].map(name => new Layer(name));
const LAYERS = [rails, cuts, arrows, marks, names, labels];

// The drawing is one stop of Tab. Arrow keys move its focus to the next event, or to the next process.
let roving = null, rovesTo = null;
function itemAt({p, n}) { return n === 0 ? names.kept.get(p) : marks.kept.get(p + ',' + n); }
function isFocusable(item) { return item && !item.isGone && item.isWithin; }
function focusableItems() { return [...marks.kept.values(), ...names.kept.values()].filter(isFocusable); }
function placeStop() {
  const items = focusableItems(), focused = document.activeElement;
  const wished = chosen && chosen.p !== undefined ? [roving, chosen] : [roving];
  const wanted = [focused, ...wished.map(what => what && itemAt(what)), marks.group.querySelector('.latest'), items[0]];
  const stop = wanted.find(item => items.includes(item));
  for (const layer of [marks, names]) for (const item of layer.kept.values()) set(item, {tabindex: item === stop ? 0 : -1});
  if (rovesTo) {
    const item = itemAt(rovesTo);
    rovesTo = null;
    if (isFocusable(item)) item.focus({preventScroll: true});
  }
  if (svg.contains(document.activeElement) && !isFocusable(document.activeElement)) area.focus({preventScroll: true});
}
// What is next to event n of process p: an event of the process, or a nearby event of the process that is drawn next.
function neighbour({p, n}, key) {
  const last = Math.min(n, sizeOf(p));
  if (key === 'ArrowLeft') return {p, n: Math.max(0, last - 1)};
  if (key === 'ArrowRight') return {p, n: Math.min(sizeOf(p), last + 1)};
  const q = nextRow(p, key === 'ArrowDown' ? 1 : -1);
  if (q === undefined) return {p, n: last};
  return {p: q, n: firstWhere([...shown.events[q], ...later[q].events], event => event.depth > depthAt(p, last))};
}
function rove(key) {
  roving = rovesTo = neighbour(document.activeElement.chooses, key);
  show({isRoved: true});
}
"#;
