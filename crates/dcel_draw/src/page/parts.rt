//! What stands around the steps of a page.

/// What stands before them.
pub const BEGIN: &str = r##"<!doctype html>
<html lang="en">
<head>
<meta charset="utf-8">
<meta name="viewport" content="width=device-width, initial-scale=1">
<title>A talk with a mesh</title>
<style>
:root { color-scheme: light dark; font: 16px/1.4 system-ui, sans-serif; scroll-padding: 1rem 0 4rem; }
body { margin: 0 auto; max-width: 80rem; padding: 0 1rem 5rem; }
h1 { font-size: 1.3rem; }
section { display: grid; grid-template-columns: minmax(12rem, 1fr) 3fr; gap: 1rem; border-top: 1px solid #8886; padding: .6rem 0; }
kbd { font: bold 1rem ui-monospace, monospace; display: block; overflow-wrap: anywhere; }
samp { font: .9rem ui-monospace, monospace; white-space: pre-wrap; overflow-wrap: anywhere; opacity: .8; }
img { max-width: 100%; max-height: 80vh; justify-self: start; background: #fff; border-radius: 4px; }
figure { margin: 0; background: Canvas; }
nav { position: fixed; inset: auto 0 0 0; display: flex; gap: .6rem; align-items: center; padding: .6rem 1rem; background: Canvas; border-top: 1px solid #8886; }
nav[hidden] { display: none; }
nav input { flex: 1; min-width: 0; }
.stepped { display: grid; grid-template-columns: minmax(12rem, 1fr) 3fr; align-items: start; column-gap: 1rem; }
.stepped section { display: contents; }
.stepped div { grid-column: 1; padding: .15rem .4rem; border-left: 3px solid transparent; cursor: pointer; }
.stepped .now div { border-color: #1f5fd6; background: #1f5fd622; }
.stepped figure { display: none; grid-column: 2; grid-row: 1 / span 9999; position: sticky; top: 1rem; }
.stepped .now figure { display: block; }
@media (max-width: 40rem) {
:root { scroll-padding-top: 46vh; }
section { grid-template-columns: minmax(0, 1fr); overflow-x: auto; }
img { max-width: none; max-height: none; display: block; zoom: .75; }
.stepped { display: flex; flex-direction: column; align-items: stretch; }
.stepped figure { order: -1; top: 0; max-height: 45vh; overflow: auto; }
.whole img { max-width: 100%; max-height: 45vh; margin: auto; zoom: 1; }
}
@media print { nav { display: none; } section { break-inside: avoid; } }
</style>
</head>
<body>
<h1>A talk with a mesh</h1>
<p>Each line with its reply, and the mesh after it. What a line has changed is blue. Vertices stay where they are as long as the mesh can be drawn so.</p>
<main>
"##;

/// What stands after them: the script by which one step is shown at a time.
pub const END: &str = r##"</main>
<nav hidden>
<button type="button" aria-label="The line before">◀</button>
<input type="range" min="1" value="1" aria-label="Step">
<output></output>
<button type="button" aria-label="The next line">▶</button>
</nav>
<script>
const steps = [...document.querySelectorAll("section")];
const frames = steps.map((step) => {
  const frame = document.createElement("figure");
  frame.append(step.lastElementChild);
  step.append(frame);
  return frame;
});
const [back, on] = document.querySelectorAll("nav button");
const slider = document.querySelector("nav input");
const count = document.querySelector("nav output");
let now = 1;
function show(number) {
  const { scrollLeft, scrollTop } = frames[now - 1];
  now = Math.min(Math.max(number, 1), steps.length);
  steps.forEach((step, index) => step.classList.toggle("now", index + 1 === now));
  frames[now - 1].scrollTo(scrollLeft, scrollTop);
  slider.value = now;
  count.textContent = `${now} of ${steps.length}`;
  steps[now - 1].firstElementChild.scrollIntoView({ block: "nearest" });
  history.replaceState(null, "", `#step-${now}`);
}
const keys = { ArrowRight: () => now + 1, ArrowDown: () => now + 1, ArrowLeft: () => now - 1, ArrowUp: () => now - 1, Home: () => 1, End: () => steps.length };
if (steps.length > 0) {
  const main = document.querySelector("main");
  main.classList.add("stepped");
  document.querySelector("p").append(" In a narrow window, tap the picture to see all of it.");
  document.querySelector("nav").hidden = false;
  slider.max = steps.length;
  slider.oninput = () => show(Number(slider.value));
  back.onclick = () => show(now - 1);
  on.onclick = () => show(now + 1);
  steps.forEach((step, index) => step.firstElementChild.onclick = () => show(index + 1));
  frames.forEach((frame) => frame.onclick = () => main.classList.toggle("whole"));
  addEventListener("keydown", (event) => {
    if (event.key in keys && !event.altKey && !event.ctrlKey && !event.metaKey) {
      event.preventDefault();
      show(keys[event.key]());
    }
  });
  show(Number(location.hash.slice("#step-".length)) || 1);
  const frame = frames[now - 1];
  frame.scrollTo((frame.scrollWidth - frame.clientWidth) / 2, (frame.scrollHeight - frame.clientHeight) / 2);
}
</script>
</body>
</html>
"##;
