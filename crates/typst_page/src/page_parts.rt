//! The parts of a page that are the same for every text.

/// The beginning of a page, up to its title.
pub(crate) const HEAD: &str = "\
<!DOCTYPE html>
<html lang=\"en\">
<head>
<meta charset=\"utf-8\">
<meta name=\"viewport\" content=\"width=device-width\">
<title>";

/// The part of a page from after its title to its body.
pub(crate) const STYLE: &str = "</title>
<style>
:root {
  color-scheme: light dark;
  --ink: #1d2127; --paper: #fff; --told: #444b55; --line: #d0d4da; --hit: #ffe9a8; --above: #f4f0e2; --pin: #cfe3ff;
  --kept: #1f5fa8; --moved: #7a3d9e; --new: #a84300; --bad: #b3261e; --warning: #7d5200; --faint: #5f6873;
}
@media (prefers-color-scheme: dark) {
  :root {
    --ink: #e6e8eb; --paper: #16181c; --told: #b9c0ca; --line: #3b424c; --hit: #46390d; --above: #2b2a20; --pin: #1d3a5f;
    --kept: #8ab8f2; --moved: #d3a6ef; --new: #ffb07a; --bad: #ff9d94; --warning: #e8be6d; --faint: #a3acb8;
  }
}
body { font: 15px/1.45 system-ui, sans-serif; margin: 1.5rem; color: var(--ink); background: var(--paper); }
h1 { font-size: 1.3rem; overflow-wrap: anywhere; } h2 { font-size: 1.05rem; margin: 2rem 0 .5rem; white-space: pre-line; }
a { color: var(--kept); }
code, pre, .tree, .row { font-family: ui-monospace, monospace; font-size: 13px; }
.tools { display: flex; flex-wrap: wrap; gap: .4rem .9rem; align-items: center; margin: .6rem 0; }
input::placeholder { color: var(--faint); } .tools input[type=number] { width: 3.5em; }
.row { border-collapse: collapse; } .row td { padding: 0 .5em .1em 0; white-space: pre; } .row tr + tr td { color: var(--faint); font-family: system-ui, sans-serif; }
.legend { overflow-x: auto; }
.pair { display: grid; grid-template-columns: minmax(0, 1fr) minmax(0, 1.3fr); gap: 1rem; align-items: start; }
.text, .tree { border: 1px solid var(--line); border-radius: 6px; padding: .6rem; margin: 0; }
.text { order: -1; padding-left: 4.2em; position: sticky; top: .5rem; max-height: 92vh; overflow: auto; white-space: pre-wrap; overflow-wrap: anywhere; counter-reset: line; }
.text s { counter-increment: line; text-decoration: none; }
.text s::before { content: counter(line); position: absolute; left: 0; width: 3.2em; text-align: right; color: var(--faint); }
.text .cut { color: var(--faint); }
.tree { overflow: auto; }
.tree details details, .tree .cut { margin-left: .4em; border-left: 1px solid var(--line); padding-left: .9em; }
.tree p { margin: 0 0 .4em 1.3em; white-space: pre-wrap; color: var(--told); }
.tree .cut { color: var(--faint); }
summary { cursor: pointer; white-space: pre; list-style: none; }
summary::-webkit-details-marker { display: none; }
summary:focus-visible { outline: 2px solid var(--kept); outline-offset: 1px; }
u { display: inline-block; width: 1.3em; text-decoration: none; color: var(--faint); }
details:not(.i) > summary { padding-left: 1.3em; }
details[open] > summary > u::before { content: \"▾\"; } u::before { content: \"▸\"; }
.i > p { display: none; } .i > summary:focus + p, .i.pin > p, .unscripted .i:target > p { display: block; }
i, .number { font-style: normal; color: var(--kept); } .new > summary i, .fresh { color: var(--new); font-weight: 700; }
.moved > summary i, .other { color: var(--moved); font-weight: 700; }
.tree s { text-decoration: none; font-size: 0; } .tree s::before { content: \"…\"; font-size: 13px; }
i:hover s, .whole s { font-size: inherit; } i:hover s::before, .whole s::before { content: none; }
.bad > summary b { color: var(--bad); } span.bad { text-decoration: underline wavy var(--bad); }
span.hit, .hit > summary { background: var(--hit); } .above > summary { background: var(--above); }
span.pin, .pin > summary { background: var(--pin); } .found > summary { outline: 2px solid var(--warning); }
.bare .t { display: none; }
.reports { padding-left: 1.2em; } .reports .error b { color: var(--bad); } .reports .warning b { color: var(--warning); }
.numbers { overflow-x: auto; border: 1px solid var(--line); border-radius: 6px; margin: .5rem 0 1rem; }
@media (max-width: 60rem) { body { margin: .6rem; } .pair { grid-template-columns: minmax(0, 1fr); } .text { position: static; max-height: 50vh; } }
@media print {
  :root { --ink: #000; --paper: #fff; } body { margin: 0; font-size: 10pt; } .tools { display: none; }
  .pair { display: flex; flex-direction: column; } .text, .tree { max-height: none; overflow: visible; position: static; border: 0; }
  summary { white-space: pre-wrap; break-inside: avoid; }
}
</style>
</head>
<body>
";

/// The tools, which only the script shows, and what a reader of the page needs to know.
pub(crate) const LEGEND: &str = "\
<div class=\"tools\" hidden>
<label>find <input id=\"find\" type=\"search\" placeholder=\"a kind or a text\"></label><span id=\"told\" role=\"status\"></span>
<button id=\"fold\" type=\"button\">fold all</button>
<label>unfold to depth <input id=\"depth\" type=\"number\" min=\"0\" max=\"999\" value=\"3\"></label>
<label><input id=\"bare\" type=\"checkbox\"> hide spaces and comments</label>
<label><input id=\"whole\" type=\"checkbox\"> whole numbers</label>
</div>
<div class=\"legend\">
<table class=\"row\" aria-label=\"what a row of the tree tells\">
<tr><td>▾</td><td><b>Heading</b></td><td>0..7</td><td>1:1</td><td class=\"number\">#…87293</td><td>\"= Trees\"</td></tr>
<tr><td>folds</td><td>kind</td><td>bytes</td><td>line:column</td><td>number</td><td>text</td></tr>
</table>
<p>A click on a row tells its path and what its view answers, and marks its text until the next click. After an edit the numbers of
<span class=\"fresh\">new nodes</span> and of nodes that <span class=\"other\">moved</span> to another number are marked; all others stayed.</p>
</div>
";

/// The end of a page, with its script. The leaves of a tree and what is left out of it come in the order of their texts.
pub(crate) const TAIL: &str = "\
<script>
'use strict';
const all = (selector, within = document) => [...within.querySelectorAll(selector)];
const byId = (id) => document.getElementById(id);
const trees = all('.tree'), isRow = (node) => node.matches('details');
document.querySelector('.tools').hidden = false;

// The texts of a node and those of its leaves come in the same order, and so do the lines of what is left out.
const places = new Map(), nodes = new Map();
const ends = (box) => all('details:not(.i), .cut', box);
const pairUp = (tree) => {
  if (places.has(tree)) return;
  places.set(tree, true);
  const texts = [...tree.nextElementSibling.children];
  ends(tree).forEach((end, at) => {
    places.set(end, texts[at]);
    nodes.set(texts[at], end);
  });
};
const textsOf = (node) => (node.matches('.i') ? ends(node) : [node]).map((end) => places.get(end)).filter(Boolean);

// What is marked: what is pointed at, and what a click has pinned.
let marked = [], pinned = [];
const mark = (list, it, name) => {
  it.classList.add(name);
  list.push([it, name]);
};
const clear = (list) => {
  for (const [it, name] of list) it.classList.remove(name);
  list.length = 0;
};
const aboveOf = (node) => {
  const found = [];
  for (let it = node.parentElement; !it.matches('.tree'); it = it.parentElement) found.push(it);
  return found;
};
const point = (node) => {
  clear(marked);
  mark(marked, node, 'hit');
  for (const it of textsOf(node)) mark(marked, it, 'hit');
  for (const it of aboveOf(node)) mark(marked, it, 'above');
};

// Answers that say nothing stand behind one word.
const shorten = (told) => {
  if (told.querySelector('details')) return;
  const lines = told.textContent.split('\\n');
  const empty = lines.filter((line) => /: (false|none|\\[\\])$/.test(line));
  if (!empty.length) return;
  told.textContent = lines.filter((line) => !empty.includes(line)).join('\\n') + '\\n';
  const more = document.createElement('details'), word = document.createElement('summary');
  word.textContent = `${empty.length} empty`;
  more.append(word, empty.join('\\n'));
  more.className = 'i more';
  told.append(more);
};
const pin = (node, scrolls = true) => {
  const isPinned = node.classList.contains('pin');
  for (const [it] of pinned) if (isRow(it) && !it.matches('.i')) it.open = false;
  clear(pinned);
  if (isPinned) return;
  for (const it of aboveOf(node)) it.open = true;
  mark(pinned, node, 'pin');
  for (const it of textsOf(node)) mark(pinned, it, 'pin');
  if (!node.matches('.i, .cut')) node.open = true;
  const told = node.querySelector(':scope > p');
  if (told) shorten(told);
  if (scrolls) textsOf(node)[0]?.scrollIntoView({ block: 'nearest' });
};

// The rows that aren't in a folded node, and the way between them.
const rows = (tree) => all('details:not(.more)', tree).filter((it) => aboveOf(it).every((above) => above.open) && it.offsetParent);
const focus = (node) => node?.firstElementChild.focus();
const walk = (tree, node, key) => {
  const shown = rows(tree), at = shown.indexOf(node), isInner = node.matches('.i');
  if (key === 'ArrowDown') focus(shown[at + 1]);
  else if (key === 'ArrowUp') focus(shown[at - 1]);
  else if (key === 'Home') focus(shown[0]);
  else if (key === 'End') focus(shown.at(-1));
  else if (key === 'ArrowRight' && isInner) node.open ? focus(shown[at + 1]) : (node.open = true);
  else if (key === 'ArrowLeft') isInner && node.open ? (node.open = false) : isRow(node.parentElement) && focus(node.parentElement);
  else if (key === 'Enter' || key === ' ') pin(node);
  else return false;
  return true;
};

for (const tree of trees) {
  const pair = tree.parentElement, text = tree.nextElementSibling;
  pair.addEventListener('mouseover', (event) => {
    pairUp(tree);
    const span = event.target.closest('.text > span');
    const node = span ? nodes.get(span) : event.target.closest('.tree details, .tree .cut');
    if (node) point(node);
  });
  pair.addEventListener('mouseleave', () => clear(marked));
  tree.addEventListener('click', (event) => {
    const row = event.target.closest('summary');
    if (!row || row.parentElement.matches('.more') || event.target.matches('u')) return;
    event.preventDefault();
    pairUp(tree);
    row.focus();
    pin(row.parentElement);
  });
  text.addEventListener('click', (event) => {
    pairUp(tree);
    const node = nodes.get(event.target.closest('.text > span'));
    if (!node) return;
    pin(node, false);
    node.scrollIntoView({ block: 'nearest' });
  });
  tree.addEventListener('keydown', (event) => {
    const row = event.target.closest('summary');
    if (!row || row.parentElement.matches('.more')) return;
    pairUp(tree);
    if (walk(tree, row.parentElement, event.key)) event.preventDefault();
  });
}
document.addEventListener('keydown', (event) => event.key === 'Escape' && clear(pinned));

// A link of an error leads to its node, which is pinned, and to its text.
const follow = () => {
  const it = byId(location.hash.slice(1)), node = it?.closest('.tree details, .tree .cut');
  const span = it?.closest('.text > span'), tree = node?.closest('.tree') ?? span?.parentElement.previousElementSibling;
  if (!tree) return;
  pairUp(tree);
  clear(pinned);
  pin(node ?? nodes.get(span));
  (node ? node.firstElementChild : span).scrollIntoView({ block: 'center' });
};
addEventListener('hashchange', follow);
for (const link of all('.reports a')) link.addEventListener('click', () => link.hash === location.hash && follow());
if (location.hash) follow();

// The tools.
const setDepth = (most) => {
  for (const tree of trees) for (const it of all('.i:not(.more)', tree)) it.open = aboveOf(it).length < most;
};
byId('fold').addEventListener('click', () => setDepth(0));
byId('depth').addEventListener('change', (event) => setDepth(Number(event.target.value)));
byId('bare').addEventListener('change', (event) => document.body.classList.toggle('bare', event.target.checked));
byId('whole').addEventListener('change', (event) => document.body.classList.toggle('whole', event.target.checked));
let found = [], at = 0;
const search = (word) => {
  for (const it of found) it.classList.remove('found');
  const small = word.toLowerCase();
  found = !word ? [] : all('.tree details:not(.more)').filter((it) => {
    const row = it.firstElementChild, quoted = row.lastChild.textContent.toLowerCase();
    return row.querySelector('b').textContent.toLowerCase() === small || quoted.includes(small, quoted.indexOf('\"'));
  });
  for (const it of found) it.classList.add('found');
  at = 0;
  show();
};
const show = () => {
  byId('told').textContent = byId('find').value ? `${found.length ? at + 1 : 0} of ${found.length}` : '';
  const node = found[at];
  if (!node) return;
  for (const it of aboveOf(node)) it.open = true;
  node.firstElementChild.scrollIntoView({ block: 'center' });
};
byId('find').addEventListener('input', (event) => search(event.target.value));
byId('find').addEventListener('keydown', (event) => {
  if (event.key !== 'Enter' || !found.length) return;
  at = (at + (event.shiftKey ? found.length - 1 : 1)) % found.length;
  show();
});
</script>
</body>
</html>
";
