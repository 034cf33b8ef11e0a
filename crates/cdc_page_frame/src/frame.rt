//! The texts of pages and drawings. Written by tools/page/write.py from files in tools/page/; change those.

/// The text of a page before its data.
pub const BEFORE: &str = r##"<!DOCTYPE html>
<!-- Relayplum: a simulation, step by step -->
<html lang="en">
<head>
<meta charset="utf-8">
<meta name="viewport" content="width=device-width,initial-scale=1">
<meta http-equiv="Content-Security-Policy" content="default-src 'none'; script-src 'unsafe-inline'; style-src 'unsafe-inline'">
<title>A simulation, step by step</title>
<style>
:root{color-scheme:light dark;--paper:#fff;--ink:#1b1f24;--dim:#59636e;--line:#c9d1d9;--soft:#f1f4f7;--mark:#fff3c4;
--good:#0b6b3a;--bad:#b3261e;--twice:#8a4b00;--move:#0b57a4}
@media (prefers-color-scheme:dark){:root{--paper:#12161b;--ink:#e6edf3;--dim:#9aa5b1;--line:#39424c;--soft:#1c232b;
--mark:#4a3f12;--good:#6fdc9c;--bad:#ff8f85;--twice:#f2b366;--move:#7db8ff}}
*{box-sizing:border-box}
body{margin:0;padding:12px;background:var(--paper);color:var(--ink);font:15px/1.45 system-ui,sans-serif}
h1{font-size:1.15rem;margin:0 0 4px;overflow-wrap:anywhere}
h2{font-size:.95rem;margin:0 0 4px}
p{margin:0 0 6px}
button,input{font:inherit;color:inherit}
button{background:var(--soft);border:1px solid var(--line);border-radius:6px;padding:4px 10px;min-height:34px}
button:focus-visible,input:focus-visible,[tabindex]:focus-visible{outline:3px solid var(--move);outline-offset:1px}
#bar{display:flex;flex-wrap:wrap;gap:6px;align-items:center;position:sticky;top:0;z-index:2;background:var(--paper);
padding:6px 0;border-bottom:1px solid var(--line)}
#slider{flex:1 1 160px;min-width:120px}
#at{font-variant-numeric:tabular-nums;white-space:nowrap}
#sentence{margin:8px 0;padding:6px 8px;background:var(--mark);border-left:5px solid var(--ink);overflow-wrap:anywhere;
font-family:ui-monospace,monospace;font-size:.9rem;min-height:2.2em}
#claim{margin:0 0 8px}
#claim li{overflow-wrap:anywhere}
ul{margin:0;padding-left:1.1em}
#main{display:grid;grid-template-columns:minmax(0,3fr) minmax(250px,2fr);gap:12px;align-items:start}
@media (max-width:820px){#main{grid-template-columns:minmax(0,1fr)}}
#drawing{position:relative;overflow:auto;height:68vh;min-height:260px;border:1px solid var(--line);border-radius:6px}
#heads{position:sticky;top:0;z-index:1;background:var(--paper);border-bottom:1px solid var(--line);height:40px}
#heads span{position:absolute;top:2px;text-align:center;font-size:.72rem;line-height:1.15;padding:0 1px;
transform:translateX(-50%)}
#space{position:relative}
svg text{fill:currentColor;font:11px ui-monospace,monospace}
#draw{position:absolute;left:0;display:block}
.card{border:1px solid var(--line);border-radius:6px;padding:8px;margin:0 0 8px;overflow-wrap:anywhere}
table{border-collapse:collapse;width:100%;font-variant-numeric:tabular-nums;font-size:.85rem}
th,td{text-align:right;padding:1px 5px;border-bottom:1px solid var(--line)}
th:first-child,td:first-child{text-align:left}
.chips{display:flex;flex-wrap:wrap;gap:3px;margin:3px 0}
.chip{border:1px solid var(--line);border-radius:4px;padding:0 5px;min-height:26px;font:.78rem ui-monospace,monospace}
.chip.has{border-color:var(--good);border-width:2px}
.chip.no{border-style:dotted;color:var(--dim)}
.dim{color:var(--dim)}
.tag{font-weight:600}
pre{white-space:pre-wrap;overflow-wrap:anywhere;font-size:.75rem;margin:4px 0;max-height:240px;overflow:auto;
background:var(--soft);padding:6px}
.go{display:block;width:100%;text-align:left;margin:2px 0;min-height:28px;padding:1px 6px;font-size:.8rem}
.hit{cursor:pointer}
#legend{font-size:.8rem;color:var(--dim)}
@media print{#bar,#legend{display:none}#drawing{height:auto;overflow:visible;border:0}#main{display:block}
body{padding:0;font-size:12px}.card{break-inside:avoid}}
</style>
</head>
<body>
<h1 id="title">A simulation, step by step</h1>
<div id="bar" role="group" aria-label="Time">
<button id="first" title="First step (Home)" aria-label="First step">|&lt;</button>
<button id="back" title="Step back (left arrow)" aria-label="Step back">&lt;</button>
<button id="play" title="Play or pause (space)" aria-pressed="false">Play</button>
<button id="on" title="Step on (right arrow)" aria-label="Step on">&gt;</button>
<button id="last" title="Last step (End)" aria-label="Last step">&gt;|</button>
<input id="slider" type="range" min="0" value="0" aria-label="Step">
<span id="at"></span>
</div>
<div id="sentence" role="status" aria-live="polite"></div>
<ul id="claim" aria-label="The theorem as it stands"></ul>
<div id="main">
<div>
<div id="drawing" tabindex="0" aria-label="Lanes and messages">
<div id="heads"></div>
<div id="space"><svg id="draw" aria-hidden="true"></svg></div>
</div>
<p id="legend">A solid arrow arrives and counts; a dashed arrow with a cross at its end is ignored, or is a duplicate;
an open circle ends a message that is lost or still in flight. A square is a save, a bar across a lane a crash, a
triangle a rewind. Click a message or an account.</p>
</div>
<div id="state"></div>
</div>
<noscript>This page draws a simulation by a script, which this browser doesn't run.</noscript>
<script>
"use strict";
const ROW=26,PAD=14;
const $=id=>document.getElementById(id);
const decode=s=>{let a=new Uint8Array(s.length);for(let i=0;i<s.length;i++)a[i]=s.charCodeAt(i);
return new TextDecoder().decode(a)};
let data,steps,count,lines,subs,lanes,events,at=0,timer=null,arrows=[],marks=[],opened=null,width=600;
const make=(name,text,cls)=>{const e=document.createElement(name);if(text!==undefined)e.textContent=text;
if(cls)e.className=cls;return e};
const shape=(name,attributes,text)=>{const e=document.createElementNS("http://www.w3.org/2000/svg",name);
for(const k in attributes)e.setAttribute(k,attributes[k]);if(text!==undefined)e.textContent=text;return e};
const itemName=i=>i==="end"?"end mark":"event "+i;
const plural=(n,word)=>n+" "+word+(n===1?"":"s");

// ---- the whole run: arrows, marks and the ledger's events, made once
const L=0,C=1,B=2,Q=i=>1+2*i,S=i=>2+2*i;
function prepare(){
 events=[];subs=0;
 const sent=[],taken=new Map(),confirms=[],queueFlight=[],acks=[],paths=[];
 let session=null;
 const arrow=(kind,from,to,y0,y1,end,label,item)=>arrows.push({kind,from,to,y0,y1,end,label,item});
 const mark=(kind,lane,y,label)=>marks.push({kind,lane,y,label});
 for(let n=1;n<=count;n++){
  const s=steps[n],name=s.step[0],m=s.moved,i=+s.step[1];
  for(const e of s.logged)if(e){e.timestamp=e.body.timestamp;e.step=n;events.push(e);subs=Math.max(subs,e.queues.length)}
  if(["send","rewind","break","take","ack","close"].includes(name))subs=Math.max(subs,i);
  if(name==="batch")mark("batch",L,n,plural(s.logged.length-1,"event"));
  else if(name==="close_ledger")mark("close",L,n,"closed");
  else if(name==="close")mark("close",S(i),n,"closed");
  if(!m)continue;
  if(m.move==="session_started"){session=m.session;mark("start",C,n,"session "+m.session+" after "+m.after)}
  else if(m.move==="session_lost"){mark("crash",C,n,"crash")}
  else if(m.move==="events_offered"){if(+m.count)arrow("offer",L,C,n,n,"counts",plural(+m.count,"event"),m.first)}
  else if(m.move==="packet_sent"){sent[+m.number]={n,packet:m.packet,arrivals:0}}
  else if(m.move==="packet_taken"||m.move==="packet_ignored"){
   const p=sent[i],ok=m.move==="packet_taken",item=m.packet.item;p.arrivals++;
   arrow("packet",C,B,p.n,n,ok?"counts":"ignored",(item?itemName(item):"connect "+m.packet.connect)+(ok?"":", ignored"),item);
   if(ok&&item){confirms.push({n,session:m.packet.session,tag:m.packet.tag,item,answered:0});mark("enter",B,n,item)}}
  else if(m.move==="confirm_received"){const c=confirms[i-1];c.answered++;s.confirms=c.item;
   arrow("confirm",B,C,c.n,n,s.did==="counted"?"counts":"ignored","confirm "+i,c.item)}
  else if(m.move==="progress_saved")mark("save",C,n,"saved "+m.timestamp);
  else if(m.move==="delivery_sent"){(queueFlight[i]=queueFlight[i]||[]).push({n,item:m.item,position:m.position})}
  else if(m.move==="queue_rewound")mark("rewind",Q(i),n,"rewinds to "+(BigInt(m.acked)+1n));
  else if(m.move==="flight_lost"){for(const d of queueFlight[i]||[])arrow("delivery",Q(i),S(i),d.n,n,"lost",itemName(d.item)+", lost",d.item);
   queueFlight[i]=[];mark("rewind",Q(i),n,"breaks, rewinds to "+(BigInt(m.acked)+1n))}
  else if(m.move==="delivery_taken"){const d=queueFlight[i].shift();(acks[i]=acks[i]||[]).push({n,position:m.position,item:m.item,came:0});
   const ok=s.did==="applied"||s.did==="ended";
   arrow("delivery",Q(i),S(i),d.n,n,ok?"counts":"ignored",itemName(m.item)+(ok?"":", "+s.did),m.item)}
  else if(m.move==="acknowledged"){const a=acks[i][+s.step[2]-1];a.came++;
   arrow("ack",S(i),Q(i),a.n,n,"counts","ack "+a.position,a.item)}
 }
 const last=count+.5;
 for(const p of sent)if(p&&!p.arrivals)arrow("packet",C,B,p.n,Math.min(last,p.n+1.5),"air",(p.packet.item?itemName(p.packet.item):"connect "+p.packet.connect)+", not arrived",p.packet.item);
 for(const c of confirms)if(!c.answered)arrow("confirm",B,C,c.n,Math.min(last,c.n+1),"air","confirm, not arrived",c.item);
 queueFlight.forEach((f,i)=>{for(const d of f||[])arrow("delivery",Q(i),S(i),d.n,Math.min(last,d.n+1),"air",itemName(d.item)+", in flight",d.item)});
 if(!subs)subs=1;
 lanes=["ledger","connector","broker"];for(let i=1;i<=subs;i++)lanes.push("queue "+i,"subscriber "+i);
 data.byTime=new Map(events.map(e=>[e.timestamp,e]));
}

// ---- the state after a number of steps
function stateAt(n){
 const st={logged:0,session:null,after:null,start:"0",unsent:0,sent:0,confirmed:0,saved:null,packets:0,connection:"0",taken:[],
  ledgerClosed:false,queues:[],subs:[]};
 for(let i=1;i<=subs;i++){st.queues[i]={items:[],next:1,acked:0,flight:[]};
  st.subs[i]={applied:[],ended:false,closed:false,duplicates:0,taken:0}}
 for(let k=1;k<=n;k++){
  const s=steps[k],m=s.moved,name=s.step[0],i=+s.step[1];
  st.logged+=s.logged.length-1;
  if(name==="close_ledger")st.ledgerClosed=true;
  if(name==="close")st.subs[i].closed=true;
  if(!m)continue;
  switch(m.move){
  case"session_started":st.session=m.session;st.after=m.after;st.unsent=0;st.sent=0;st.confirmed=0;
   if(name==="start_at")st.start=m.after;st.saved={session:m.session,timestamp:m.after};break;
  case"session_lost":st.session=null;break;
  case"events_offered":st.unsent=+m.count;break;
  case"packet_sent":st.packets++;if(m.packet.item){st.sent++;if(m.packet.item!=="end")st.unsent--}break;
  case"packet_taken":if(m.packet.connect)st.connection=m.packet.connect;
   else{st.taken.push(m.packet.item);const e=data.byTime.get(m.packet.item);
    for(let j=1;j<=subs;j++)if(!e||e.queues[j-1]==="1")st.queues[j].items.push(m.packet.item)}break;
  case"confirm_received":if(s.did==="counted")st.confirmed++;break;
  case"progress_saved":st.saved=m;break;
  case"delivery_sent":st.queues[i].flight.push(m);st.queues[i].next=+m.position+1;break;
  case"queue_rewound":st.queues[i].next=+m.acked+1;break;
  case"flight_lost":st.queues[i].flight=[];st.queues[i].next=+m.acked+1;break;
  case"delivery_taken":st.queues[i].flight.shift();st.subs[i].taken++;
   if(s.did==="applied")st.subs[i].applied.push(m.item);else if(s.did==="ended")st.subs[i].ended=true;
   else st.subs[i].duplicates++;break;
  case"acknowledged":st.queues[i].acked=+m.acked;
  }
 }
 return st;
}
// the events that a subscriber is to apply, of those logged so far
function wanted(st,i){const out=[];for(let k=0;k<st.logged;k++){const e=events[k];
 if(e.queues[i-1]==="1"&&BigInt(e.timestamp)>BigInt(st.start))out.push(e.timestamp)}return out}
const isPrefix=(a,b)=>a.length<=b.length&&a.every((x,k)=>x===b[k]);
function balancesOf(list){const all=new Map();for(const e of list)for(const side of["debit_account","credit_account"]){
 const a=e.body[side];all.set(a.id,a)}return all}
const net=a=>BigInt(a.credits_posted)-BigInt(a.debits_posted);
const pending=a=>BigInt(a.credits_pending)-BigInt(a.debits_pending);

// ---- panels
function accountsTable(map,into){
 if(!map.size){into.append(make("p","no account yet","dim"));return}
 const t=make("table"),h=make("tr");for(const c of["account","posted","pending"])h.append(make("th",c));t.append(h);
 let shown=0;for(const[id,a]of map){if(++shown>60){t.append(make("caption","the first 60 of "+map.size));break}
  const r=make("tr"),c=make("td"),b=make("button",id,"chip");b.dataset.account=id;b.onclick=()=>open("account",id);
  c.append(b);r.append(c,make("td",String(net(a))),make("td",String(pending(a))));t.append(r)}
 into.append(t)}
function chips(list,applied,into){
 const from=Math.max(0,Math.min(applied-12,list.length-24)),to=Math.min(list.length,from+24),box=make("div",undefined,"chips");
 if(from)box.append(make("span",from+" before","dim"));
 for(let k=from;k<to;k++){const b=make("button",(k<applied?"\u2713 ":"\u00b7 ")+list[k],"chip "+(k<applied?"has":"no"));
  b.onclick=()=>open("event",list[k]);b.title=k<applied?"applied":"not applied yet";box.append(b)}
 if(to<list.length)box.append(make("span",list.length-to+" after","dim"));into.append(box)}
function card(title){const c=make("section",undefined,"card");c.append(make("h2",title));$("state").append(c);return c}
function show(){
 const st=stateAt(at);
 $("slider").value=at;$("slider").setAttribute("aria-valuetext","step "+at+" of "+count);
 $("at").textContent="step "+at+" of "+count;
 $("sentence").textContent=at?lines[at-1]:"before the first step";
 if(at===count&&data.refusal)$("sentence").textContent+=" \u2014 the next step is refused: "+decode(data.refusal);
 $("claim").textContent="";$("state").textContent="";
 if(opened)detail();
 for(let i=1;i<=subs;i++){const w=wanted(st,i),s=st.subs[i],ok=isPrefix(s.applied,w);
  const li=make("li");li.append(make("span","subscriber "+i+": ","tag"),"applied "+s.applied.length+" of "+w.length
   +(ok?", a prefix":", NOT a prefix")+(s.ended?", complete":"")+(s.closed?", closed":""));
  li.dataset.subscriber=i;$("claim").append(li)}
 const l=card("ledger");l.id="ledger";
 l.append(make("p",plural(st.logged,"event")+" logged"+(st.ledgerClosed?", closed":"")));
 accountsTable(balancesOf(events.slice(0,st.logged)),l);
 const c=card("connector");c.id="connector";
 c.append(make("p",st.session?"session "+st.session+", after "+st.after:"no session"),
  make("p","window "+data.window+": "+plural(Math.max(0,st.unsent),"event")+" to send, "+plural(Math.max(0,st.sent-st.confirmed),"item")+" to be confirmed"),
  make("p",st.saved?"saved: session "+st.saved.session+" up to "+st.saved.timestamp:"nothing saved"));
 const b=card("broker");b.id="broker";
 b.append(make("p",st.connection==="0"?"no session is connected":"session "+st.connection+" is connected"),
  make("p",plural(st.taken.length,"item")+" taken; "+plural(st.packets,"packet")+" sent so far"));
 for(let i=1;i<=subs;i++){const q=st.queues[i],s=st.subs[i],x=card("subscriber "+i);x.id="subscriber"+i;
  x.append(make("p","queue: "+plural(q.items.length,"item")+", next position "+q.next+", acknowledged up to "+q.acked
   +", in flight "+(q.flight.map(d=>d.position).slice(0,12).join(" ")||"none")),
   make("p","taken "+s.taken+", of these duplicates or ignored "+s.duplicates+(s.ended?"; the end mark is received":"")+(s.closed?"; closed":"")));
  x.append(make("p","the ledger\u2019s events that it takes; a check marks the prefix that it has applied:","dim"));
  chips(wanted(st,i),s.applied.length,x);
  const h=make("p","its book:","dim");x.append(h);accountsTable(balancesOf(s.applied.map(t=>data.byTime.get(t)).filter(Boolean)),x)}
 draw();
}
function mentions(timestamp){const out=[];for(let n=1;n<=count;n++){const m=steps[n].moved,l=steps[n].logged;
 if(l.some(e=>e&&e.timestamp===timestamp))out.push(n);
 else if(m&&(m.item===timestamp||m.packet&&m.packet.item===timestamp||m.move==="events_offered"&&m.first&&BigInt(m.first)<=BigInt(timestamp)&&BigInt(timestamp)<=BigInt(m.last)))out.push(n);
 else if(m&&m.move==="confirm_received"&&steps[n].confirms===timestamp)out.push(n)}return out}
function goButton(n){const b=make("button","step "+n+": "+lines[n-1],"go");b.onclick=()=>go(n);return b}
function open(kind,id){opened={kind,id};show();const d=$("detail");if(d)d.scrollIntoView({block:"nearest"})}
function detail(){
 const d=card(opened.kind==="event"?(opened.id==="end"?"end mark":"event "+opened.id):"account "+opened.id);d.id="detail";
 const x=make("button","Close");x.onclick=()=>{opened=null;show()};d.append(x);
 if(opened.kind==="event"){
  const e=data.byTime.get(opened.id);if(e)d.append(make("pre",JSON.stringify(e.body,null,1)));
  const all=mentions(opened.id);d.append(make("p","its path, "+plural(all.length,"step")+":"));
  for(const n of all.slice(0,80))d.append(goButton(n));
  if(all.length>80)d.append(make("p",all.length-80+" more","dim"));
 }else plot(d,opened.id);
}
function plot(into,id){
 const points=[];for(const e of events)for(const side of["debit_account","credit_account"])if(e.body[side].id===id)
  points.push({n:e.step,posted:net(e.body[side]),pending:pending(e.body[side])});
 if(!points.length)return;
 const values=points.flatMap(p=>[p.posted,p.pending]).concat(0n);
 const low=values.reduce((a,b)=>b<a?b:a),high=values.reduce((a,b)=>b>a?b:a),span=high-low||1n;
 const W=300,H=110,x=n=>40+(W-50)*n/Math.max(1,count),y=v=>H-18-Number((v-low)*1000n/span)*(H-32)/1000;
 const svg=shape("svg",{viewBox:"0 0 "+W+" "+H,width:"100%",role:"img","aria-label":"balances of account "+id});
 const line=(key,dash)=>{let d="M"+x(0)+" "+y(0n);for(const p of points)d+="H"+x(p.n)+"V"+y(p[key]);d+="H"+x(count);
  svg.append(shape("path",{d,fill:"none",stroke:"currentColor","stroke-width":dash?1:2,"stroke-dasharray":dash||"none"}))};
 svg.append(shape("line",{x1:40,x2:W-10,y1:y(0n),y2:y(0n),stroke:"var(--line)"}));
 line("pending","4 3");line("posted","");
 svg.append(shape("line",{x1:x(at),x2:x(at),y1:4,y2:H-14,stroke:"var(--move)","stroke-dasharray":"2 2"}));
 svg.append(shape("text",{x:2,y:y(high)+4},String(high)),shape("text",{x:2,y:y(low)+4},String(low)),
  shape("text",{x:40,y:H-2},"solid: posted, dashed: pending"));
 into.append(svg);
 const t=points.filter(p=>p.n<=at).at(-1);
 into.append(make("p",t?"now: posted "+t.posted+", pending "+t.pending:"no event yet"));
 for(const n of[...new Set(points.map(p=>p.n))].slice(-40))into.append(goButton(n));
}

// ---- the drawing: what is in view
function layout(){
 const box=$("drawing");width=Math.max(box.clientWidth,lanes.length*62);
 $("space").style.width=width+"px";$("heads").style.width=width+"px";$("space").style.height=(count+2)*ROW+PAD+"px";
 $("heads").textContent="";
 lanes.forEach((name,k)=>{const s=make("span",name);s.style.left=laneX(k)+"px";$("heads").append(s)});
}
const laneX=k=>(k+.5)*width/lanes.length;
const rowY=n=>PAD+n*ROW;
function draw(all){
 const box=$("drawing"),svg=$("draw"),top=all?0:Math.max(0,box.scrollTop-ROW*4),
  bottom=all?rowY(count+2):box.scrollTop+box.clientHeight+ROW*4;
 const n0=(top-PAD)/ROW,n1=(bottom-PAD)/ROW;
 svg.textContent="";svg.setAttribute("width",width);svg.setAttribute("height",bottom-top);svg.style.top=top+"px";
 svg.setAttribute("viewBox","0 "+top+" "+width+" "+(bottom-top));
 svg.append(shape("rect",{x:0,y:rowY(at)-ROW/2,width,height:ROW,fill:"var(--mark)",id:"row"}));
 lanes.forEach((name,k)=>svg.append(shape("line",{x1:laneX(k),x2:laneX(k),y1:top,y2:bottom,stroke:"var(--line)","stroke-width":k<3||k%2?2:4})));
 const range=data.range||(data.range=downs());
 for(const[a,b]of range)if(b>=n0&&a<=n1)svg.append(shape("line",{x1:laneX(C),x2:laneX(C),y1:rowY(a),y2:rowY(b),stroke:"var(--paper)","stroke-width":4}),
  shape("line",{x1:laneX(C),x2:laneX(C),y1:rowY(a),y2:rowY(b),stroke:"var(--bad)","stroke-width":1,"stroke-dasharray":"2 5"}));
 let passing=0;
 for(const a of arrows){
  if(a.y1<n0||a.y0>n1)continue;
  if(a.y0<n0&&a.y1>n1&&++passing>40)continue;
  drawArrow(svg,a);
 }
 for(const m of marks)if(m.y>=n0&&m.y<=n1)drawMark(svg,m);
 svg.append(shape("line",{x1:0,x2:width,y1:rowY(at)+ROW/2,y2:rowY(at)+ROW/2,stroke:"var(--ink)","stroke-width":1.5}));
}
function downs(){const out=[];let from=0;for(let n=1;n<=count;n++){const m=steps[n].moved;
 if(m&&m.move==="session_started"){out.push([from,n]);from=null}
 else if(m&&m.move==="session_lost")from=n}
 if(from!==null)out.push([from,count+1]);return out}
const ink={offer:"--ink",packet:"--move",confirm:"--good",delivery:"--move",ack:"--good"};
function drawArrow(svg,a){
 const future=a.y0>at,x0=laneX(a.from),whole=laneX(a.to),stub=a.end==="air"||a.end==="lost",x1=stub?x0+(whole-x0)*.6:whole;
 const y0=rowY(a.y0),y1=rowY(stub&&a.end==="lost"?Math.min(a.y1,a.y0+1.2):a.y1),dx=Math.sign(x1-x0);
 const colour="var("+(a.end==="ignored"?"--twice":stub?"--bad":ink[a.kind])+")",g=shape("g",{opacity:future?.3:1,"class":"arrow "+a.kind+" "+a.end});
 const ex=stub?x1:x1-dx*2;
 g.append(shape("line",{x1:x0,y1:y0,x2:ex,y2:y1,stroke:colour,"stroke-width":a.kind==="confirm"||a.kind==="ack"?1.2:1.8,"stroke-dasharray":a.end==="ignored"?"5 3":a.kind==="confirm"||a.kind==="ack"?"1 2":"none"}));
 g.append(shape("circle",{cx:x0,cy:y0,r:2.5,fill:colour}));
 if(stub)g.append(shape("circle",{cx:ex,cy:y1,r:4,fill:"none",stroke:colour,"stroke-width":1.6}));
 else if(a.end==="ignored")g.append(shape("path",{d:"M"+(ex-4)+" "+(y1-4)+"l8 8m0-8l-8 8",stroke:colour,"stroke-width":1.8}));
 else{const t=Math.atan2(y1-y0,ex-x0),w=.45,r=8;g.append(shape("path",{d:"M"+ex+" "+y1+"L"+(ex-r*Math.cos(t-w))+" "+(y1-r*Math.sin(t-w))+"L"+(ex-r*Math.cos(t+w))+" "+(y1-r*Math.sin(t+w))+"Z",fill:colour}))}
 const sentence=width/lanes.length>=90?a.label:a.item||"";
 if(sentence){const text=shape("text",{x:(x0+ex)/2,y:(y0+y1)/2-4,"text-anchor":"middle",stroke:"var(--paper)","stroke-width":3,"paint-order":"stroke"},sentence);g.append(text)}
 if(a.item){g.classList.add("hit");g.append(shape("line",{x1:x0,y1:y0,x2:ex,y2:y1,stroke:"transparent","stroke-width":12}));
  g.addEventListener("click",()=>open("event",a.item));g.append(shape("title",{},a.label))}
 svg.append(g);
}
function drawMark(svg,m){
 const x=laneX(m.lane),y=rowY(m.y),g=shape("g",{opacity:m.y>at?.3:1,"class":"mark "+m.kind});
 if(m.kind==="enter"){const e=data.byTime.get(m.label);for(let i=1;i<=subs;i++)if(!e||e.queues[i-1]==="1"){
   g.append(shape("line",{x1:x,x2:laneX(Q(i)),y1:y,y2:y,stroke:"var(--dim)","stroke-dasharray":"1 4"}),shape("rect",{x:laneX(Q(i))-5,y:y-3,width:10,height:6,fill:"var(--dim)"}))}
  svg.append(g);return}
 if(m.kind==="crash")g.append(shape("rect",{x:x-14,y:y-3,width:28,height:6,fill:"var(--bad)"}));
 else if(m.kind==="save")g.append(shape("rect",{x:x-6,y:y-6,width:12,height:12,fill:"var(--good)"}));
 else if(m.kind==="rewind")g.append(shape("path",{d:"M"+(x-7)+" "+(y+5)+"h14l-7-11z",fill:"var(--twice)"}));
 else if(m.kind==="close")g.append(shape("rect",{x:x-7,y:y-7,width:14,height:14,fill:"none",stroke:"var(--ink)","stroke-width":2}));
 else g.append(shape("circle",{cx:x,cy:y,r:5,fill:"var(--ink)"}));
 const text=shape("text",{x:x+10,y:y+4,stroke:"var(--paper)","stroke-width":3,"paint-order":"stroke"},width/lanes.length>=90||m.lane!==C?m.label:m.label.split(" ")[0]);
 if(m.lane===lanes.length-1){text.setAttribute("text-anchor","end");text.setAttribute("x",x-10)}
 g.append(text);svg.append(g);
}

// ---- time
function go(n,still){at=Math.max(0,Math.min(count,n));
 const box=$("drawing"),y=rowY(at);
 if(!still&&(y<box.scrollTop+ROW||y>box.scrollTop+box.clientHeight-ROW*3))box.scrollTop=Math.max(0,y-box.clientHeight/2);
 show()}
function play(on){clearInterval(timer);timer=null;
 if(on){if(at===count)go(0);timer=setInterval(()=>{if(at>=count)play(false);else go(at+1)},700)}
 $("play").textContent=timer?"Pause":"Play";$("play").setAttribute("aria-pressed",String(!!timer))}
function keys(e){
 if(e.ctrlKey||e.altKey||e.metaKey)return;
 const n={ArrowLeft:at-1,ArrowRight:at+1,Home:0,End:count}[e.key];
 if(n!==undefined){e.preventDefault();play(false);go(n)}
 else if(e.key===" "&&!(e.target instanceof HTMLButtonElement&&e.target.id!=="play")){e.preventDefault();play(!timer)}
}
document.addEventListener("DOMContentLoaded",()=>{
 data=JSON.parse($("data").textContent);steps=data.steps;count=steps.length-1;lines=decode(data.trace).split("\n");
 $("title").textContent=decode(data.script)+", step by step";document.title=$("title").textContent;
 prepare();
 $("slider").max=count;$("slider").oninput=()=>{play(false);go(+$("slider").value)};
 $("first").onclick=()=>go(0);$("back").onclick=()=>go(at-1);$("on").onclick=()=>go(at+1);$("last").onclick=()=>go(count);
 $("play").onclick=()=>play(!timer);
 document.addEventListener("keydown",keys);
 let waits=false;
 $("drawing").addEventListener("scroll",()=>{if(!waits){waits=true;requestAnimationFrame(()=>{waits=false;draw()})}});
 addEventListener("resize",()=>{layout();draw()});
 addEventListener("beforeprint",()=>draw(count<=400));addEventListener("afterprint",()=>draw());
 layout();
 const wantedStep=/^#(\d+)$/.exec(location.hash);go(wantedStep?+wantedStep[1]:data.opens?+data.opens:0);
});
</script>
<script type="application/json" id="data">"##;

/// The text of a page after its data.
pub const AFTER: &str = r##"</script>
</body>
</html>
"##;

/// What follows the first tag of a drawing: its style, its marks and the names of the lanes.
pub const STYLE: &str = r##"<title>A simulation, step by step</title>
<style>
svg{color-scheme:light dark;background:#fff}
text{font:11px ui-monospace,monospace;fill:#1b1f24}
.names text{font-weight:600;text-anchor:middle}
g text{text-anchor:end}
path{fill:none;stroke:#0b57a4;stroke-width:1.8}
.lane{stroke:#c9d1d9}
.in,.whole{marker-end:url(#head)}
.out{marker-end:url(#open)}
.no{stroke:#8a4b00;stroke-dasharray:5 3;marker-end:url(#cross)}
.ack{stroke-dasharray:1 2;marker-end:url(#head)}
@media (prefers-color-scheme:dark){svg{background:#12161b}text{fill:#e6edf3}path{stroke:#7db8ff}.lane{stroke:#39424c}
.no{stroke:#f2b366}}
</style>
<defs>
<pattern id="lanes" x="0" width="90" height="9" patternUnits="userSpaceOnUse"><path class="lane" d="M45 0V9"/></pattern>
<marker id="head" refX="8" refY="4" markerWidth="9" markerHeight="9" markerUnits="userSpaceOnUse" orient="auto"><path
 d="M0 0L8 4L0 8z" style="fill:context-stroke;stroke:none"/></marker>
<marker id="open" refX="5" refY="5" markerWidth="10" markerHeight="10" markerUnits="userSpaceOnUse"><circle cx="5" cy="5"
 r="3.5" fill="none" stroke="context-stroke" stroke-width="1.5"/></marker>
<marker id="cross" refX="5" refY="5" markerWidth="10" markerHeight="10" markerUnits="userSpaceOnUse"><path
 d="M1 1L9 9M9 1L1 9" style="stroke:context-stroke;stroke-dasharray:none"/></marker>
<circle id="batch" r="5"/><circle id="start" r="5"/>
<rect id="save" x="-6" y="-6" width="12" height="12" fill="#0b6b3a"/>
<rect id="close" x="-6" y="-6" width="12" height="12" fill="none" stroke="#59636e" stroke-width="2"/>
<rect id="crash" x="-15" y="-3" width="30" height="6" fill="#b3261e"/>
<path id="rewind" d="M-7 5H7L0 -6z" style="fill:#8a4b00;stroke:none"/>
<path id="lost" d="M-6 -6L6 6M6 -6L-6 6" style="stroke:#b3261e"/>
</defs>
<rect width="1640" height="100%" y="34" fill="url(#lanes)"/>
<g class="names"><text x="45" y="22">ledger</text><text x="135" y="22">connector</text><text x="225" y="22">broker</text>
<text x="315" y="22">queue 1</text><text x="405" y="22">subscriber 1</text><text x="495" y="22">queue 2</text><text
 x="585" y="22">subscriber 2</text><text x="675" y="22">queue 3</text><text x="765" y="22">subscriber 3</text><text
 x="855" y="22">queue 4</text><text x="945" y="22">subscriber 4</text><text x="1035" y="22">queue 5</text><text
 x="1125" y="22">subscriber 5</text><text x="1215" y="22">queue 6</text><text x="1305" y="22">subscriber 6</text><text
 x="1395" y="22">queue 7</text><text x="1485" y="22">subscriber 7</text><text x="1575" y="22">queue 8</text><text
 x="1665" y="22">subscriber 8</text></g>
"##;
