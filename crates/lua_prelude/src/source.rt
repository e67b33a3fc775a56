// The Lua text of the functions that are no primitives.
ghost use Rattle.std.specs.Prelude.{◌≡◌};
ghost use Rattle.library_rows.specs.PreludeText.{prelude_text};

/// The text of the prelude, whose functions stand beside the primitives in the libraries' tables (Lua 5.4
/// manual, 6).
pub fn text() -> &'static str
    ensures text { result.now ≡ prelude_text }
{
    "function bad(i,f,w) error(\"bad argument #\"..i..\" to '\"..f..\"' (\"..w..\")\") end\n\
function tabl(f,t) if type(t)~=\"table\" then bad(1,f,\"table expected, got \"..type(t)) end end\n\
function int(f,i,v) local n=toint(v)\n\
\x20if n==nil then bad(i,f,\"number expected, got \"..type(v)) end return n end\n\
function str(f,i,v) local k=type(v) if k==\"number\" then return text(v) end\n\
\x20if k~=\"string\" then bad(i,f,\"string expected, got \"..k) end return v end\n\
function tostring(v) local h=meta(v,\"__tostring\") if h==nil then return text(v) end\n\
\x20local s=h(v) local k=type(s) if k==\"number\" then return text(s) end\n\
\x20if k~=\"string\" then error(\"'__tostring' must return a string\") end return s end\n\
function print(...) for i=1,select(\"#\",...) do if i>1 then out(\"\\t\") end\n\
\x20out(tostring((select(i,...)))) end out(\"\\n\") end\n\
function inext(t,i) i=i+1 local v=t[i] if v~=nil then return i,v end end\n\
function ipairs(t) return inext,t,0 end\n\
function pairs(t) local h=meta(t,\"__pairs\")\n\
\x20if h==nil then return next,t,nil end\n\
\x20local a,b,c=h(t) return a,b,c end\n\
function insert(t,...) tabl(\"insert\",t) local e,n=#t+1,select(\"#\",...)\n\
\x20if n==1 then t[e]=(...) return end\n\
\x20if n~=2 then error(\"wrong number of arguments to 'insert'\") end\n\
\x20local p,v=... p=int(\"insert\",2,p)\n\
\x20if p<1 or p>e then bad(2,\"insert\",\"position out of bounds\") end\n\
\x20for i=e,p+1,-1 do t[i]=t[i-1] end t[p]=v end\n\
function remove(t,p) tabl(\"remove\",t) local n=#t\n\
\x20if p==nil then p=n else p=int(\"remove\",2,p) end\n\
\x20if p~=n and (p<1 or p>n+1) then bad(2,\"remove\",\"position out of bounds\") end\n\
\x20local v=t[p] for i=p,n-1 do t[i]=t[i+1] end\n\
\x20if p<n then p=n end t[p]=nil return v end\n\
function concat(t,s,i,j) tabl(\"concat\",t)\n\
\x20if s==nil then s=\"\" else s=str(\"concat\",2,s) end\n\
\x20if i==nil then i=1 else i=int(\"concat\",3,i) end\n\
\x20if j==nil then j=#t else j=int(\"concat\",4,j) end\n\
\x20local r,n={},0\n\
\x20for k=i,j do local v=t[k] local y=type(v)\n\
\x20 if y~=\"string\" and y~=\"number\" then\n\
\x20  error(\"invalid value (at index \"..k..\") in table for 'concat'\") end\n\
\x20 if n>0 then n=n+1 r[n]=s end n=n+1 r[n]=v end\n\
\x20return join(r,n) end\n\
function unpack(t,i,j) if i==nil then i=1 else i=int(\"unpack\",2,i) end\n\
\x20if j==nil then j=#t else j=int(\"unpack\",3,j) end\n\
\x20if i>j then return end\n\
\x20if j-i<0 or j-i>=1000000 then error(\"too many results to unpack\") end\n\
\x20local r={} for k=i,j do r[k-i+1]=t[k] end return spread(r,j-i+1) end\n\
function move(a,f,e,t,b) tabl(\"move\",a)\n\
\x20f=int(\"move\",2,f) e=int(\"move\",3,e) t=int(\"move\",4,t)\n\
\x20if b==nil then b=a elseif type(b)~=\"table\" then\n\
\x20 bad(5,\"move\",\"table expected, got \"..type(b)) end\n\
\x20if e>=f then\n\
\x20 if f<=0 and e>=0x7fffffffffffffff+f then bad(3,\"move\",\"too many elements to move\") end\n\
\x20 if t>0x7fffffffffffffff-(e-f) then bad(4,\"move\",\"destination wrap around\") end\n\
\x20 if t>e or t<=f or b~=a then for i=0,e-f do b[t+i]=a[f+i] end\n\
\x20 else for i=e-f,0,-1 do b[t+i]=a[f+i] end end\n\
\x20end return b end\n\
function gmatch(s,p,i) local _ENV=_ENV s=str(\"gmatch\",1,s) p=str(\"gmatch\",2,p)\n\
\x20if i~=nil then i=int(\"gmatch\",3,i) end\n\
\x20local at,last=from(i,#s),0\n\
\x20return function() local b,e,c=seek(s,p,at,last,true)\n\
\x20 if b==nil then return nil end at=e last=e return spread(c,c.n) end end\n\
function gsub(s,p,r,m) s=str(\"gsub\",1,s) p=str(\"gsub\",2,p) local k=type(r)\n\
\x20if k==\"number\" then r=text(r) k=\"string\" end\n\
\x20if k~=\"string\" and k~=\"table\" and k~=\"function\" then\n\
\x20 bad(3,\"gsub\",\"string/function/table expected, got \"..k) end\n\
\x20if m==nil then m=#s+1 else m=int(\"gsub\",4,m) end\n\
\x20local o,q,at,last,n={},0,1,0,0\n\
\x20while n<m do local b,e,c=seek(s,p,at,last,false)\n\
\x20 if b==nil then break end n=n+1 local v\n\
\x20 if k==\"string\" then v=expand(r,c) elseif k==\"table\" then v=r[c[1]]\n\
\x20 else v=r(spread(c,c.n)) end\n\
\x20 if not v then v=c[0] else local y=type(v) if y~=\"string\" and y~=\"number\" then\n\
\x20  error(\"invalid replacement value (a \"..y..\")\") end end\n\
\x20 o[q+1]=sub(s,at,b-1) o[q+2]=v q=q+2 at=e last=e\n\
\x20 if sub(p,1,1)==\"^\" then break end end\n\
\x20o[q+1]=sub(s,at) return join(o,q+1),n end\n\
function format(f,...) f=str(\"format\",1,f) local a,k=pack(...),kinds(f)\n\
\x20for i=1,#k do if sub(k,i,i)==\"s\" and i<=a.n then a[i]=tostring(a[i]) end end\n\
\x20return layout(f,spread(a,a.n)) end\n\
function load(c,n,m,...) if type(c)==\"function\" then local r,q={},0\n\
\x20 while true do local ok,s=pcall(c) if not ok then return nil,s end\n\
\x20  if s==nil or s==\"\" then break end\n\
\x20  if type(s)~=\"string\" then return nil,\"reader function must return a string\" end\n\
\x20  q=q+1 r[q]=s end\n\
\x20 c=join(r,q) end return build(c,n,m,...) end\n\
function after(c,ok,...) if ok then return ... end local e=...\n\
\x20if status(c)==\"dead\" then local o,x=close(c) if not o then e=x end end\n\
\x20error(e,0) end\n\
function wrap(f) local _ENV=_ENV local c=create(f)\n\
\x20return function(...) return after(c,resume(c,...)) end end\n\
"
}
