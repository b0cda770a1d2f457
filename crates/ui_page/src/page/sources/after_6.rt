//! `tests/run page_sources --update` writes this file from `page/page.html` and what that includes.

pub(super) static TEXT: &str = r#"
// The search finds lines by their text and reply, events by what they did, and values that processes have now.
const FOUND = 50, searchField = find('search'), results = find('results');
let atResult = -1;
// The events that line n made.
function madeBy(n) {
  return states[n].lines.flatMap(({done}, p) => {
    const old = states[n - 1].lines[p].done, made = [];
    for (let event = done; event.n > old.n && made.length < FOUND; event = event.before) made.push(event);
    return made.reverse();
  });
}
function findValues(has) {
  return state.lines.flatMap(({done}, p) => [...valuesAt(done)].map(([name, value]) => name + '=' + value).filter(has)
    .map(text => ({text: processes[p].name + ' has ' + text + ' now', line: place, chosen: {p, n: done.n}})));
}
function findLine(n, has) {
  const [text, reply] = lines[n - 1], found = [];
  if (has(text + ' -> ' + reply)) found.push({text: 'line ' + n + ': ' + text + (reply && ' -> ' + reply), line: n, chosen: null});
  if (states[n].lines === states[n - 1].lines) return found;
  for (const event of madeBy(n)) {
    const whole = 'event ' + event.n + ' of ' + processes[event.p].name + ': ' + deeds(event);
    if (has(whole)) found.push({text: 'line ' + n + ', ' + whole, line: n, chosen: {p: event.p, n: event.n}});
  }
  return found;
}
// The lines after the current one come first, and then those from the start.
function findAll(words) {
  const sought = words.toLowerCase().split(/\s+/).filter(word => word), has = text => sought.every(word => text.toLowerCase().includes(word));
  if (sought.length === 0) return [];
  const found = findValues(has).slice(0, 10);
  for (let i = 0; i < lines.length && found.length < FOUND; i++) found.push(...findLine((place + i) % lines.length + 1, has));
  return found;
}
function markResult(n) {
  atResult = Math.max(-1, Math.min(results.children.length - 1, n));
  [...results.children].forEach((item, i) => set(item, {'aria-selected': i === atResult}));
  if (atResult < 0) return searchField.removeAttribute('aria-activedescendant');
  set(searchField, {'aria-activedescendant': 'result' + atResult});
  results.children[atResult].scrollIntoView({block: 'nearest'});
}
function showResults() {
  const found = findAll(searchField.value);
  results.replaceChildren(...found.map((result, i) => {
    const item = node('div', result.text, {role: 'option', id: 'result' + i});
    item.onclick = () => take(result);
    return item;
  }));
  if (found.length === 0 && searchField.value.trim()) results.append(node('div', 'nothing found', {class: 'note'}));
  set(searchField, {'aria-expanded': found.length > 0});
  results.classList.toggle('open', results.childElementCount > 0);
  Object.assign(results, {found, sought: searchField.value});
  markResult(found.length > 0 ? 0 : -1);
}
function take(result) {
  if (!result) return;
  closeSearch();
  go(result.line);
  choose(result.chosen);
}
function openSearch() {
  searchField.focus();
  searchField.select();
}
function closeSearch() {
  results.classList.remove('open');
  set(searchField, {'aria-expanded': false});
  listArea.focus();
}
let searchWaits = 0;
searchField.addEventListener('input', () => {
  clearTimeout(searchWaits);
  searchWaits = setTimeout(showResults, lines.length > 5000 ? 200 : 0);
});
searchField.addEventListener('keydown', event => {
  if (event.key === 'Escape') closeSearch();
  else if (event.key === 'ArrowDown') markResult(atResult + 1);
  else if (event.key === 'ArrowUp') markResult(Math.max(0, atResult - 1));
  else if (event.key === 'Enter') {
    clearTimeout(searchWaits);
    if (!results.classList.contains('open') || results.sought !== searchField.value) showResults();
    take(results.found[Math.max(0, atResult)]);
  } else return;
  event.preventDefault();
  event.stopPropagation();
});
searchField.addEventListener('blur', () => setTimeout(() => {
  if (document.activeElement !== searchField) results.classList.remove('open');
}, 200));

// A choice of what is shown, as a check box.
function checkBox(text, isOn, change) {
  const box = node('input', '', {type: 'checkbox'});
  box.checked = isOn;
  box.onchange = () => {
    change(box.checked);
    show({isMoved: true, isChosen: true});
  };
  return node('label', [box, ' ' + text]);
}
function hide(keys, key, isShown) {
  if (isShown) keys.delete(key); else keys.add(key);
}
function boxes(legend, made) { return node('fieldset', [node('legend', legend), ...made]); }
// All breakpoints that the session ever has.
function pointNames() {
  const names = new Set();
  let last = null;
  for (const {points} of states) if (points !== last) for (const {name} of last = points) names.add(name);
  return [...names];
}
function fillChoices() {
  const ofProcesses = processes.map(({name}, p) => checkBox(name, true, isShown => {
    hide(hidden.processes, p, isShown);
    placeRows();
  }));
  const ofPoints = pointNames().map(name => checkBox(name, true, isShown => hide(hidden.points, name, isShown)));
  const questions = checkBox('questions, as cut and vars', true, isShown => {
    hidden.isQuestions = !isShown;
    relist();
  });
  find('choices').append(boxes('processes', ofProcesses), boxes('lines', [questions]));
  if (ofPoints.length > 0) find('choices').lastChild.before(boxes('breakpoints', ofPoints));
}
fillChoices();
// A click elsewhere and Escape close the choices.
const shownPart = find('shown');
document.addEventListener('click', event => { if (!shownPart.contains(event.target)) shownPart.open = false; });
shownPart.addEventListener('keydown', event => {
  if (event.key !== 'Escape') return;
  shownPart.open = false;
  shownPart.querySelector('summary').focus();
  event.stopPropagation();
});

// Bars between two areas, which a pointer or arrow keys move. They set how wide the list of lines is, and how high the details are, in percent.
const splitters = {
  beside: {least: 10, most: 60, back: 'ArrowLeft', on: 'ArrowRight', at: event => 100 * event.clientX / innerWidth},
  above: {least: 10, most: 80, back: 'ArrowDown', on: 'ArrowUp', at: event => 100 * (innerHeight - event.clientY) / innerHeight},
};
function split(name, percent) {
  const {least, most} = splitters[name], value = Math.round(Math.max(least, Math.min(most, percent)));
  document.body.style.setProperty('--' + name, value + '%');
  set(find(name), {'aria-valuenow': value});
  show({});
}
// How much there is now, in percent.
function share(name) {
  const area = find(find(name).getAttribute('aria-controls'));
  return name === 'beside' ? 100 * area.offsetWidth / innerWidth : 100 * area.offsetHeight / innerHeight;
}
for (const name in splitters) {
  const bar = find(name), {least, most, back, on, at} = splitters[name];
  set(bar, {'aria-valuemin': least, 'aria-valuemax': most, 'aria-valuenow': Math.round(share(name))});
  bar.onpointerdown = event => bar.setPointerCapture(event.pointerId);
  bar.onpointermove = event => bar.hasPointerCapture(event.pointerId) && split(name, at(event));
  bar.onkeydown = event => {
    if (event.key !== back && event.key !== on) return;
    split(name, share(name) + (event.key === on ? 2 : -2));
    event.preventDefault();
    event.stopPropagation();
  };
}

// Changes: of the current line, of the chosen event or breakpoint, of the visible part. They are drawn once for each frame.
let waits = null;
function show(what) {
  if (waits) return void Object.assign(waits, what);
  waits = what;
  requestAnimationFrame(() => {
    const {isMoved, isChosen} = waits;
    waits = null;
    if (isMoved) {
      follow();
      say();
    }
    if (isMoved || isChosen) {
      showDetails();
      showPoints();
      markProgram();
      noteAddress();
    }
    measure();
    if (isMoved) toChange();
    if (isChosen && chosen && chosen.n <= sizeOf(chosen.p)) reveal(chosen.p, chosen.n, true);
    if (rovesTo && rovesTo.n <= sizeOf(rovesTo.p)) reveal(rovesTo.p, rovesTo.n, true);
    paintLines();
    paint(isMoved || isChosen);
    paintOverview();
  });
}
// Shows the line and its reply above.
function say() {
  find('slider').value = place;
  const [text, reply] = place === 0 ? ['start of the session', ''] : lines[place - 1];
  const begin = place === 0 ? '' : 'line ' + place + ' of ' + lines.length + ': ';
  update(find('said'), [begin, node('code', text), reply && ' -> ', node('b', node('code', reply))]);
}
// Scrolls to what the line changed, and after a jump to a halt, to the cut. After another jump, finds the last change, which may be in an
// earlier line.
function toChange() {
  revealLine();
  const isOpening = shownLine < 0, isJump = Math.abs(place - shownLine) > 1, cut = isJump && halts.includes(place) ? shownCut() : null;
  shownLine = place;
  if (cut) return revealCut(cut, isOpening);
  let n = place;
  if (isJump) while (n > 1 && states[n].lines === states[n - 1].lines) n--;
  const made = latest(n).map((n, p) => [p, Math.min(n, sizeOf(p))]).filter(([p, n]) => n > 0 && rowOf[p] >= 0);
  if (made.length > 0) reveal(...made.reduce((one, other) => depthAt(...other) > depthAt(...one) ? other : one));
}
function go(n) {
  const next = Math.max(0, Math.min(lines.length, n));
  if (next !== place) {
    place = next;
    show({isMoved: true});
  }
}
// Goes so many listed lines further.
function step(by) {
  const at = listPlace(place), isBetween = listed[at] !== place;
  go(listed[Math.max(0, Math.min(listed.length - 1, at + by + (isBetween && by < 0 ? 1 : 0)))]);
}
function choose(what) {
  chosen = what;
  if (what && what.p !== undefined) roving = what;
  find('details').scrollTop = 0;
  show({isChosen: true});
}
// Whether a line changed something: an event, a breakpoint, or which one halts.
function isChange(n) { return states[n] !== states[n - 1]; }
// Plays the lines that change something, and the last line.
function play(isOn) {
  clearInterval(playing);
  playing = 0;
  setText(find('play'), isOn ? 'stop' : 'play');
  if (!isOn) return;
  if (place === lines.length) go(0);
  playing = setInterval(playOn, 600);
}
function playOn() {
  if (place === lines.length) return play(false);
  let n = place + 1;
  while (n < lines.length && !isChange(n)) n++;
  go(n);
}
// Chooses a neighbour of the chosen event. If none is chosen, chooses the event that the line made.
function walk(key) {
  if (chosen && chosen.p !== undefined) return choose(rovesIfFocused(neighbour(chosen, key)));
  const p = Math.max(0, latest(place).findIndex(n => n > 0));
  choose(rovesIfFocused({p, n: state.lines[p].done.n}));
}
// The focus follows the choice, if it is in the drawing.
function rovesIfFocused(what) {
  if (svg.contains(document.activeElement)) rovesTo = what;
  return what;
}
// Goes to the next line that halts the session, or to the one before.
function toHalt(isNext) {
  const line = isNext ? halts.find(n => n > place) : halts.findLast(n => n < place);
  if (line !== undefined) go(line);
}
// Escape ends the choice. With none, it brings the focus to the lines.
function escape() {
  if (chosen) choose(null); else listArea.focus();
}
const moves = {ArrowUp: -1, ArrowLeft: -1, ArrowDown: 1, ArrowRight: 1, PageUp: -10, PageDown: 10, Home: -Infinity, End: Infinity};
const keys = {
  Escape: escape, '+': () => zoom(1.25, pointer), '=': () => zoom(1.25, pointer), '-': () => zoom(.8, pointer), f: fit, h: () => toHalt(true),
  H: () => toHalt(false), '/': openSearch, p: toggleProgram,
};
// Whether the focused part of the page uses this key by itself.
function isTaken(focused, key, isShifted) {
  if (focused.matches('input:not([type=range]), select')) return true;
  if (focused.matches('summary') && /^( |Enter)$/.test(key)) return true;
  return focused.matches('#details, #program') && !isShifted && key in moves && (focused.id === 'program' || !/Left|Right/.test(key));
}
// Whether the focus came by Tab. Only then arrow keys move it in the drawing: after a click they go through the lines.
let isTabbed = false;
document.addEventListener('pointerdown', () => isTabbed = false, true);
document.addEventListener('keydown', event => {
  if (event.ctrlKey || event.altKey || event.metaKey) return;
  const focused = document.activeElement, {key} = event;
  if (key === 'Tab') isTabbed = true;
  if (isTaken(focused, key, event.shiftKey)) return;
  if (event.shiftKey && key.startsWith('Arrow')) walk(key);
  else if (isTabbed && key.startsWith('Arrow') && svg.contains(focused) && focused.chooses) rove(key);
  else if (key in moves) step(moves[key]);
  else if (focused.chooses && (key === 'Enter' || key === ' ')) choose(focused.chooses);
  else if (key === ' ' && focused.tagName !== 'BUTTON') play(!playing);
  else if (Object.hasOwn(keys, key)) keys[key]();
  else return;
  event.preventDefault();
});
document.addEventListener('click', event => {
  const item = event.target.closest('g, #points button, .row');
  if (!item || !getSelection().isCollapsed && item.line !== undefined) return;
  if (item.chooses) choose(item.chooses);
  else if (item.line !== undefined) go(item.line);
});
find('slider').max = lines.length;
find('halts').append(...halts.slice(0, 100).map(n => node('option', '', {value: n})));
find('slider').oninput = event => go(Number(event.target.value));
const buttons = {
  first: () => step(-Infinity), before: () => step(-1), next: () => step(1), last: () => step(Infinity), play: () => play(!playing),
  narrower: () => zoom(.8), wider: () => zoom(1.25), fit, text: copyAsText, copy: copyLink, save, code: toggleProgram,
};
for (const name in buttons) find(name).onclick = buttons[name];
listArea.onscroll = area.onscroll = () => show({});
new ResizeObserver(() => show({})).observe(area);
openAt(location.hash);
})();
</script>
</body>
</html>
"#;
