// The fixed parts of a page. The script of the last one shows what is recorded: it reads the names of the stages, the states, the table of paths, and the
// cells of the diagram. It computes nothing about the machine, and fetches nothing; the policy in the head forbids it.

/// The page up to the name of the machine in its title.
pub const FRONT: &str = "<!DOCTYPE html>
<html lang='en'>
<head>
<meta charset='utf-8'>
<meta name='viewport' content='width=device-width'>
<meta http-equiv='Content-Security-Policy' content='default-src &#39;none&#39;; style-src &#39;unsafe-inline&#39;; script-src &#39;unsafe-inline&#39;'>
<style>
body { margin: 0; height: 100vh; display: grid; grid-template-columns: minmax(16em, 26em) minmax(0, 1fr); font: 14px/1.4 'DejaVu Sans', Verdana, Helvetica, Arial, sans-serif; color: #111; background: #fff }
caption { padding-bottom: 4px; font-weight: bold; text-align: left; white-space: nowrap }
#source { overflow: auto; border-right: 1px solid #767676; padding: 8px }
ol { margin: 0; padding-left: 4em; font: 12px/1.5 'DejaVu Sans Mono', Menlo, Consolas, monospace; white-space: pre; tab-size: 4 }
li::marker { color: #595959 }
li:last-child:empty { display: none }
li.waits { background: #ffe98a; font-weight: bold; outline: 1px solid #111 }
main { display: grid; grid-template-rows: auto auto minmax(0, 3fr) minmax(0, 2fr); min-height: 0 }
.bar { display: flex; gap: 8px; align-items: center; padding: 8px }
h1, h2 { margin: 0; font-size: 1em }
h2 { padding-bottom: 4px }
#why { min-height: 2.8em; max-height: 7em; overflow: auto; padding: 0 8px 8px; border-bottom: 1px solid #767676 }
#why p { margin: 0 }
.bar input { flex: 1; max-width: 40em }
.bar output { min-width: 14em; font-weight: bold }
button { font: inherit; min-width: 3em }
#diagram { overflow: auto }
#diagram svg { display: block }
.band { fill: #ffe98a; stroke: #111; stroke-width: 2 }
.chosen text { font-weight: bold; text-decoration: underline }
.axis { pointer-events: none }
.axis text { paint-order: stroke; stroke: #fff; stroke-width: 8px; stroke-linejoin: round }
.tables { display: flex; gap: 32px; align-items: flex-start; overflow: auto; border-top: 1px solid #767676; padding: 8px }
table { border-collapse: collapse }
th, td { padding: 1px 16px 1px 0; text-align: left; font-weight: normal; white-space: nowrap; border-bottom: 1px solid #ddd }
thead th { color: #595959 }
#changed, #state, #paths { font: 12px/1.4 'DejaVu Sans Mono', Menlo, Consolas, monospace }
#paths { margin: 0 }
tr.new > * { font-weight: bold; background: #ffe98a }
@media (max-width: 60em) { body { display: block; height: auto } #source { max-height: 40vh; border-right: 0 } }
</style>
<title>";

/// From there to the first line of the source.
pub const BEFORE_SOURCE: &str = ", cycle by cycle</title>
</head>
<body>
<section id='source' tabindex='0' aria-labelledby='source_head'>
<h2 id='source_head'>Source of the job</h2>
<ol>
<li>";

/// From the end of the source to the diagram.
pub const BEFORE_DIAGRAM: &str = "</ol>
</section>
<main>
<div class='bar'>
<h1 id='name'></h1>
<button id='back' type='button' aria-label='one cycle back'>&#9664;</button>
<button id='on' type='button' aria-label='one cycle on'>&#9654;</button>
<input id='cycle' type='range' min='0' max='0' value='0' aria-label='cycle'>
<output id='place' aria-live='polite' for='cycle'></output>
</div>
<div id='why' aria-live='polite'><noscript>Without scripts this page shows the source, the diagram and the paths alone.</noscript></div>
<section id='diagram' tabindex='0' aria-label='pipeline diagram'>
";

/// From the diagram to the table of paths.
pub const BEFORE_PATHS: &str = "</section>
<section class='tables' tabindex='0' aria-label='the chosen cycle'>
<table>
<caption>Stages in this cycle</caption>
<thead><tr><th scope='col'>stage</th><th scope='col'>instruction</th><th scope='col'>what it does</th></tr></thead>
<tbody id='held'></tbody>
</table>
<table>
<caption>Changed at its start</caption>
<thead><tr><th scope='col'>name</th><th scope='col'>value</th><th scope='col'>before</th></tr></thead>
<tbody id='changed'></tbody>
</table>
<table>
<caption>Registers and words of files</caption>
<thead><tr><th scope='col'>name</th><th scope='col'>value</th></tr></thead>
<tbody id='state'></tbody>
</table>
<section aria-labelledby='paths_head'>
<h2 id='paths_head'>Paths</h2>
<pre id='paths'>";

/// From there to the names of the stages.
pub const BEFORE_STAGES: &str = "</pre>
</section>
</section>
</main>
<script type='text/plain' id='stages'>
";

/// From there to the states.
pub const BEFORE_STATES: &str = "</script>
<script type='text/plain' id='states'>
";

/// From the states to the end of the page.
pub const END: &str = "</script>
<script>
'use strict';
const byId = id => document.getElementById(id);
const recorded = id => byId(id).textContent.split(String.fromCharCode(10)).filter(line => line);

// The names of the stages, and for each cycle the words that it lists.
const stages = recorded('stages');
const cycles = [];
for (const line of recorded('states')) {
  const [name, value] = line.split(' = ');
  if (value) cycles[cycles.length - 1].push([name, value]);
  else cycles.push([]);
}
const last = cycles.length - 1;

// All names that are listed: registers, files that change, and the others, address by address.
const fileOf = name => name.split('[')[0];
const addressOf = name => Number((name.split('[')[1] || '0').split(']')[0]);
const names = [...new Set(cycles.flat().map(([name]) => name))];
const files = [...new Set(names.map(fileOf))];
const changing = new Set(cycles.slice(1).flat().map(([name]) => fileOf(name)));
const rank = name => name.includes('[') ? changing.has(fileOf(name)) ? 1 : 2 : 0;
names.sort((a, b) => rank(a) - rank(b) || files.indexOf(fileOf(a)) - files.indexOf(fileOf(b)) || addressOf(a) - addressOf(b));

// The reads of the table of paths: their lines and stages, and what older instructions have for them.
const reads = [];
for (const line of recorded('paths')) {
  const found = line.match(/ ([0-9]+)  stage ([0-9]+) +(.*)$/);
  if (found) reads.push({ line: Number(found[1]), stage: found[2], cells: found[3].split(/ +/) });
}
const lines = byId('source').querySelectorAll('li');

// The cells of the diagram, by cycle.
const diagram = byId('diagram');
const svg = diagram.querySelector('svg');
const columns = svg.querySelector(':scope > g');
const cells = cycles.map(() => []);
for (const title of svg.querySelectorAll('g > title')) {
  const cell = title.parentNode;
  const [number, cycle] = title.textContent.match(/[0-9]+/g);
  const [stage, mark] = [...cell.querySelectorAll('use')].map(use => use.getAttribute('xlink:href').slice(2));
  cells[cycle].push({ cell, number, stage, mark });
  cell.style.cursor = 'pointer';
  cell.onclick = () => show(Number(cycle));
}
const band = svg.querySelector('#c1 rect').cloneNode();
band.setAttribute('class', 'band');
// The numbers of cycles and instructions again, in front of the cells: they stay at the edges where the diagram is scrolled.
function axis(groups) {
  const all = svg.appendChild(document.createElementNS(svg.namespaceURI, 'g'));
  all.setAttribute('class', 'axis');
  for (const group of groups) all.appendChild(group.cloneNode(false)).append(group.querySelector('text').cloneNode(true));
  return all;
}
const top_axis = axis(columns.children);
const left_axis = axis(new Set(cells.flat().map(({ cell }) => cell.parentNode)));
diagram.onscroll = () => {
  top_axis.setAttribute('transform', 'translate(100,' + (66 + Math.max(0, diagram.scrollTop - 50)) + ')');
  left_axis.setAttribute('transform', 'translate(' + diagram.scrollLeft + ')');
};
diagram.onscroll();

const does = ['moves on', 'waits for a value', 'waits for the stage ahead', 'is held from outside', 'is squashed'];

// A row of a table. The first of its entries is its head.
function row([head, ...entries]) {
  const tr = document.createElement('tr');
  const th = tr.appendChild(document.createElement('th'));
  th.scope = 'row';
  th.textContent = head;
  for (const entry of entries) tr.appendChild(document.createElement('td')).textContent = entry;
  return tr;
}

function held(cycle) {
  return stages.map((name, k) => {
    const here = cells[cycle].find(({ stage }) => stage == k);
    return row(here ? [name, here.number, does[here.mark]] : [name, '-', '']);
  });
}

// The reads of a stage that can wait for a value of an older instruction. Where a guess is in their place, they never wait.
function waiting(stage) {
  return reads.filter(read => read.stage == stage && !read.cells.includes('guess') && ['wait', 'maybe', 'bypass'].some(cell => read.cells.includes(cell)));
}

function joined(list) {
  return [list.slice(0, -1).join(', '), ...list.slice(-1)].filter(text => text !== '').join(' or ');
}

// Why an instruction stays where it is, by the mark of its cell.
function reason({ number, stage, mark }) {
  const who = 'Instruction ' + number, where = ' in stage ' + stages[stage];
  const at = waiting(stage).map(read => read.line);
  if (mark == 1) return who + ' waits' + where + ' for a value that it reads in line ' + joined([...new Set(at)]) + '.';
  if (mark == 2) return who + ' waits' + where + ': the stage ahead does not take it.';
  if (mark == 3) return who + ' is held' + where + ' from outside.';
  return who + ' is squashed' + where + ': an older instruction found a guess wrong.';
}

function told(cycle) {
  if (cycle == last) return [];
  const staying = cells[cycle].filter(({ mark }) => mark != 0);
  return staying.length ? staying.map(reason) : ['No instruction waits or is squashed.'];
}

// Marks the lines of the reads for which an instruction waits.
function mark_lines(cycle) {
  for (const line of lines) line.removeAttribute('class');
  if (cycle == last) return;
  for (const { stage, mark } of cells[cycle]) {
    if (mark != 1) continue;
    for (const { line } of waiting(stage)) {
      lines[line - 1].setAttribute('class', 'waits');
      lines[line - 1].scrollIntoView({ block: 'nearest' });
    }
  }
}

// The state in a cycle, and in the cycle before it: what was listed last for a name. A word that was never listed is 0.
function shown(cycle) {
  const before = new Map(cycles.slice(0, cycle).flat());
  const now = new Map([...before, ...cycles[cycle]]);
  const is_new = name => cycle > 0 && before.get(name) != now.get(name);
  const known = names.filter(name => now.has(name));
  const state = known.map(name => {
    const tr = row([name, now.get(name)]);
    if (is_new(name)) tr.className = 'new';
    return tr;
  });
  return [known.filter(is_new).map(name => row([name, now.get(name), before.get(name) || '0'])), state];
}

let chosen = 0;
function show(cycle) {
  chosen = Math.max(0, Math.min(last, cycle));
  byId('cycle').value = chosen;
  const place = chosen < last ? 'cycle ' + chosen + ' of ' + last : 'the end, after ' + last + (last == 1 ? ' cycle' : ' cycles');
  byId('place').textContent = place;
  byId('cycle').setAttribute('aria-valuetext', place);
  byId('why').replaceChildren(...told(chosen).map(text => {
    const p = document.createElement('p');
    p.textContent = text;
    return p;
  }));
  mark_lines(chosen);
  byId('held').replaceChildren(...held(chosen));
  const [changed, state] = shown(chosen);
  byId('changed').replaceChildren(...changed);
  byId('state').replaceChildren(...state);
  for (const column of svg.querySelectorAll('.chosen')) column.removeAttribute('class');
  band.remove();
  if (chosen < last) {
    for (const numbers of [columns, top_axis]) numbers.children[chosen].setAttribute('class', 'chosen');
    columns.children[chosen].prepend(band);
  }
  const middle = cells[chosen][cells[chosen].length >> 1];
  if (middle) {
    const at = middle.cell.getBoundingClientRect(), edge = diagram.getBoundingClientRect();
    diagram.scrollBy(at.left - edge.left - edge.width / 2, at.top - edge.top - edge.height / 2);
  }
}

byId('name').textContent = document.title;
byId('cycle').max = last;
byId('cycle').oninput = event => show(Number(event.target.value));
byId('back').onclick = () => show(chosen - 1);
byId('on').onclick = () => show(chosen + 1);
document.onkeydown = event => {
  const to = { ArrowLeft: chosen - 1, ArrowRight: chosen + 1, Home: 0, End: last }[event.key];
  if (to === undefined || event.altKey || event.ctrlKey || event.metaKey) return;
  event.preventDefault();
  show(to);
};
window.onhashchange = () => show(Number(location.hash.slice(1)) || 0);
window.onhashchange();
</script>
</body>
</html>
";
